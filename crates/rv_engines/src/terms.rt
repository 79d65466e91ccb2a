//! The words of reports, each with what it means: `help words` prints them, and the page of a hunt shows them.

/// A word, and what it means in lines of at most 94 characters.
#[derive(Clone, Copy)]
pub struct Term {
    pub word: &'static str,
    pub meaning: &'static [&'static str],
}

/// The classes of races in the order in which they are shown, and the other words behind them.
pub const TERMS: [Term; 13] = [
    Term {
        word: "kept",
        meaning: &[
            "A race that no rule takes for anything harmless: two harts touch the same bytes, one of them",
            "writes, and nothing orders them. Look at these first.",
        ],
    },
    Term {
        word: "counter",
        meaning: &[
            "A race of two additions of a constant, each a load, addi and store of the same word. It may be",
            "a statistic that may lose a count; if no count may be lost, it is the bug.",
        ],
    },
    Term {
        word: "unwatched",
        meaning: &[
            "The bytes changed in a pause that no data breakpoint watched, or by a store that nobody saw, and",
            "it would else be kept or a counter. It counts neither as a bug nor as benign: take more --slots.",
        ],
    },
    Term {
        word: "flag",
        meaning: &[
            "A load whose next instruction takes some bits of what it loaded, and only other bits changed.",
            "Likely benign.",
        ],
    },
    Term {
        word: "ordered",
        meaning: &[
            "Both accesses are ones that a right lock makes: of an atomic, or plain with a fence behind the",
            "load or before the store. Likely benign.",
        ],
    },
    Term {
        word: "atomic",
        meaning: &[
            "An atomic access against a plain load without any fence. No fence orders them, and this machine,",
            "being sequentially consistent, cannot show what hardware may do. Likely benign.",
        ],
    },
    Term {
        word: "named",
        meaning: &[
            "A race on the bytes of a symbol that --named lists: it is counted, and not shown.",
        ],
    },
    Term {
        word: "near pair",
        meaning: &[
            "Two accesses to the same bytes by two harts soon after one another, one of them a write. A hunt",
            "holds one hart there, to see whether the other access can come between: that is a probe.",
        ],
    },
    Term {
        word: "stuck end",
        meaning: &[
            "Harts run, and each of them only waits for another: nothing will ever change. That is a deadlock,",
            "a lost wake-up, or an idle loop at the program's end (--idle).",
        ],
    },
    Term {
        word: "ending",
        meaning: &[
            "What a pause has shown when it ended: a hit, where another hart's access was seen; changed, where",
            "the bytes are others than before; or quiet. They are numbered from 0, as replay prints them.",
        ],
    },
    Term {
        word: "entry",
        meaning: &[
            "One event of a run in its schedule: a step, a pause or its end, or an address armed or disarmed.",
            "They are numbered from 0.",
        ],
    },
    Term {
        word: "slot",
        meaning: &[
            "A data breakpoint: it watches the bytes of one paused hart. If more harts are paused than there",
            "are slots, the others' pauses are unwatched.",
        ],
    },
    Term {
        word: "site",
        meaning: &["The address of a plain load or store, at which a hart may be paused."],
    },
];
