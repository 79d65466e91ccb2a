//! The program's commands, each with its arguments and its help. The exit statuses come after each help.

use crate::command::subcommand::{Argument, Subcommand};
use crate::status::Asks;

pub const COMMANDS: [Subcommand; 13] = [
    Subcommand {
        name: "words",
        about: "Run instruction words from the standard input",
        after: WORDS,
        asks: None,
        arguments: &[],
    },
    Subcommand {
        name: "asm",
        about: "Assemble a source into an image",
        after: SOURCES,
        asks: None,
        arguments: &[
            Argument::Word {
                name: "SOURCE",
                help: "File with the assembly source",
            },
            Argument::Word {
                name: "IMAGE",
                help: "ELF32 file to write; a refused source writes none",
            },
        ],
    },
    Subcommand {
        name: "list",
        about: "Disassemble an image",
        after: IMAGES,
        asks: None,
        arguments: &[IMAGE],
    },
    Subcommand {
        name: "replay",
        about: "Make a saved run again and print how its pauses ended and the final state",
        after: SCHEDULES,
        asks: None,
        arguments: &[IMAGE, SCHEDULE],
    },
    Subcommand {
        name: "debug",
        about: "Go to any place of a saved run, by commands on the standard input",
        after: DEBUGGER,
        asks: None,
        arguments: &[IMAGE, SCHEDULE],
    },
    Subcommand {
        name: "run",
        about: "Make many runs from a seed and print the table of the races they found",
        after: CAMPAIGN,
        asks: None,
        arguments: &[
            IMAGE,
            HARTS,
            STEPS,
            ARMS,
            PAUSE,
            SLOTS,
            SEED,
            Argument::Required {
                name: "runs",
                help: "Number of runs, 1 to 1000",
            },
            Argument::Required {
                name: "workers",
                help: "Threads that make the runs, 1 to 16; the output does not depend on it",
            },
            Argument::Optional {
                name: "named",
                value: "LIST",
                help: "Symbols, separated by commas: races on their bytes are counted, not reported",
            },
            Argument::Optional {
                name: "skip",
                value: "LIST",
                help: "Addresses of instructions never to pause at, separated by commas",
            },
            Argument::Optional {
                name: "keep",
                value: "RUN",
                help: "Run that --save saves, 0 to 999 and less than the number of runs [default: 0]",
            },
            Argument::Optional {
                name: "save",
                value: "FILE",
                help: "File for that run's schedule, which explain, replay, debug and exhibit read",
            },
        ],
    },
    Subcommand {
        name: "threads",
        about: "Make one run with a real thread for each hart and print how its pauses ended",
        after: BY_THREADS,
        asks: None,
        arguments: &[
            IMAGE,
            HARTS,
            STEPS,
            ARMS,
            PAUSE,
            SLOTS,
            SEED,
            Argument::Optional {
                name: "save",
                value: "FILE",
                help: "File for the run's schedule, which explain, replay, debug and exhibit read",
            },
        ],
    },
    Subcommand {
        name: "exhibit",
        about: "Turn a report into a list of steps that any emulator can check",
        after: EXHIBIT,
        asks: None,
        arguments: &[
            IMAGE,
            SCHEDULE,
            Argument::Word {
                name: "N",
                help: "Number of the ending, as replay prints it: 0 to 4294967295",
            },
        ],
    },
    Subcommand {
        name: "explain",
        about: "Report the races of a saved run with names, instructions and values",
        after: EXPLAIN,
        asks: None,
        arguments: &[
            IMAGE,
            SCHEDULE,
            Argument::Optional {
                name: "named",
                value: "LIST",
                help: "Symbols, separated by commas: races on their bytes are marked as named",
            },
            LINES,
            Argument::Optional {
                name: "around",
                value: "N",
                help: "Entries to show around each place, 0 to 1000, with --picture 0 to 32 [default: 3]",
            },
            Argument::Optional {
                name: "race",
                value: "K",
                help: "Show only this race, counted from 1",
            },
            Argument::Optional {
                name: "picture",
                value: "FILE",
                help: "SVG file to write, with a picture of the first race or that of --race",
            },
            Argument::Optional {
                name: "json",
                value: "FILE",
                help: "JSON file to write, with what is shown, for other programs",
            },
            COLOR,
        ],
    },
    Subcommand {
        name: "gdb",
        about: "Serve a saved run to GDB on standard input and output",
        after: GDB,
        asks: None,
        arguments: &[IMAGE, SCHEDULE],
    },
    Subcommand {
        name: "hunt",
        about: "Find races in an image: nothing but the image is needed",
        after: HUNT,
        asks: Some(Asks {
            found: "--check, --check-all, --check-ends or --expect",
            void: Some("--check"),
        }),
        arguments: &[
            IMAGE,
            Argument::Optional {
                name: "harts",
                value: "N",
                help: "Number of harts, 1 to 16 [default: 2, 4 and 8 by turns]",
            },
            Argument::Optional {
                name: "seed",
                value: "S",
                help: "Seed of the random choices, 0 to 4294967295 [default: 1]",
            },
            Argument::Optional {
                name: "first",
                value: "R",
                help: "Number of the first run, 0 to 4294967295 [default: 0]",
            },
            Argument::Optional {
                name: "runs",
                value: "N",
                help: "Number of runs, 1 to 4294967296 less --first [default: as many as --budget allows]",
            },
            Argument::Optional {
                name: "budget",
                value: "STEPS",
                help: "Steps of all runs together, 1 to 1000000000000000 [default: 50000000]",
            },
            Argument::Optional {
                name: "workers",
                value: "W",
                help: "Threads that make the runs, 1 to 16 [default: one for each processor]",
            },
            Argument::Optional {
                name: "plan",
                value: "STEPS,ARMS,PAUSE",
                help: "What run calls --steps, --arms and --pause [default: lengths of all scales, 64 arms]",
            },
            Argument::Optional {
                name: "slots",
                value: "N",
                help: "Pauses that can be watched at once, 1 to 8 [default: 8, with --sampled 4]",
            },
            Argument::Flag {
                name: "sampled",
                help: "Make every run a sampled one, with four slots by default",
            },
            Argument::Optional {
                name: "aim",
                value: "A,B",
                help: "Probe only near pairs of these two, again and again: names or addresses",
            },
            Argument::Flag {
                name: "no-orders",
                help: "Don't try what difference the order of a race's two accesses makes",
            },
            Argument::Optional {
                name: "named",
                value: "LIST",
                help: "Symbols, separated by commas: races on their bytes are counted, not reported",
            },
            Argument::Optional {
                name: "skip",
                value: "LIST",
                help: "Addresses of instructions never to pause at, separated by commas",
            },
            Argument::Optional {
                name: "idle",
                value: "LIST",
                help: "Functions in which harts may wait for ever, separated by commas",
            },
            LINES,
            IGNORE,
            SAVE_TO,
            PAGE,
            LIST,
            Argument::Optional {
                name: "table-to",
                value: "FILE",
                help: "File to write with the table of the races, as --table prints it",
            },
            JSON,
            BLOCKS,
            Argument::Flag {
                name: "table",
                help: "Print the table of the races, and what was seen on the standard error",
            },
            Argument::Flag {
                name: "check",
                help: "Exit with status 5 if there is a race that may be a bug, 6 if none means nothing",
            },
            CHECK_ALL,
            Argument::Flag {
                name: "check-ends",
                help: "Exit with status 5 if harts wait for ever, a trap stopped one, or one exited with a wrong code",
            },
            Argument::Optional {
                name: "right",
                value: "CODES",
                help: "Exit codes that are right, separated by commas [default: 0]",
            },
            EXPECT,
            QUIET,
            PROGRESS,
            COLOR,
        ],
    },
    Subcommand {
        name: "merge",
        about: "Add up the tables of a hunt that was made in pieces",
        after: MERGE,
        asks: Some(Asks {
            found: "--expect",
            void: None,
        }),
        arguments: &[
            Argument::Words {
                name: "TABLE",
                help: "Files that hunt --table wrote",
            },
            Argument::Optional {
                name: "expect",
                value: "TABLE",
                help: "Table of known races: exit with status 5 if one that may be a bug is not in it",
            },
            Argument::Flag {
                name: "gaps",
                help: "Allow that runs between those of two tables are missing",
            },
            COLOR,
        ],
    },
    Subcommand {
        name: "show",
        about: "Report the races of a hunt's table with names, instructions and values",
        after: SHOW,
        asks: Some(Asks {
            found: "--check, --check-all or --expect",
            void: None,
        }),
        arguments: &[
            IMAGE,
            Argument::Word {
                name: "TABLE",
                help: "File that hunt --table or merge wrote",
            },
            LINES,
            IGNORE,
            SAVE_TO,
            PAGE,
            LIST,
            JSON,
            BLOCKS,
            Argument::Optional {
                name: "workers",
                value: "W",
                help: "Threads that make the runs again, 1 to 16 [default: one for each processor]",
            },
            Argument::Flag {
                name: "check",
                help: "Exit with status 5 if there is a race that may be a bug",
            },
            CHECK_ALL,
            EXPECT,
            QUIET,
            PROGRESS,
            COLOR,
        ],
    },
];

const IMAGE: Argument = Argument::Word {
    name: "IMAGE",
    help: "ELF32 file: a static RISC-V executable",
};

const SCHEDULE: Argument = Argument::Word {
    name: "SCHEDULE",
    help: "File with the schedule of a run",
};

const HARTS: Argument = Argument::Required {
    name: "harts",
    help: "Number of harts, 1 to 16",
};

const STEPS: Argument = Argument::Required {
    name: "steps",
    help: "Steps in a run, of all harts together, 1 to 1000000",
};

const ARMS: Argument = Argument::Required {
    name: "arms",
    help: "Loads and stores to pause at in a run, 0 to 4096",
};

const PAUSE: Argument = Argument::Required {
    name: "pause",
    help: "Length of a pause in steps of other harts, 1 to 65535",
};

const SLOTS: Argument = Argument::Optional {
    name: "slots",
    value: "N",
    help: "Pauses that can be watched at once, 1 to 8 [default: 4]",
};

const SEED: Argument = Argument::Required {
    name: "seed",
    help: "Seed of the random choices, 0 to 4294967295",
};

const LINES: Argument = Argument::Optional {
    name: "lines",
    value: "FILE",
    help: "Source lines of the image to show, as rvcollide-lines writes them",
};

const IGNORE: Argument = Argument::Optional {
    name: "ignore",
    value: "FILE",
    help: "List of known races that are counted, not reported: two functions or addresses a line",
};

const SAVE_TO: Argument = Argument::Optional {
    name: "save-to",
    value: "DIR",
    help: "Folder for the schedule of each reported race: race-1.schedule, and so on",
};

const PAGE: Argument = Argument::Optional {
    name: "page",
    value: "FILE",
    help: "HTML file to write, with the reports and a picture of each race",
};

const LIST: Argument = Argument::Optional {
    name: "list",
    value: "FILE",
    help: "List of the races to write, for --ignore and --expect of later builds",
};

const JSON: Argument = Argument::Optional {
    name: "json",
    value: "FILE",
    help: "JSON file to write, with what was found, for other programs",
};

const BLOCKS: Argument = Argument::Optional {
    name: "blocks",
    value: "N",
    help: "Races shown in full, 0 to 10000; the others by a line each [default: 50]",
};

const CHECK_ALL: Argument = Argument::Flag {
    name: "check-all",
    help: "Exit with status 5 if there is a race, also a likely benign one",
};

const EXPECT: Argument = Argument::Optional {
    name: "expect",
    value: "FILE",
    help: "Table or list of known races: exit with status 5 if one that may be a bug is not in it",
};

const QUIET: Argument = Argument::Flag {
    name: "quiet",
    help: "Print no progress; warnings are still printed",
};

const PROGRESS: Argument = Argument::Flag {
    name: "progress",
    help: "Print a line of progress for each tenth also where the standard error is no terminal",
};

const COLOR: Argument = Argument::Optional {
    name: "color",
    value: "WHEN",
    help: "Colour of classes, errors and warnings: auto, always or never [default: auto]",
};

/// What the help of `words` says after its options.
const WORDS: &str = "\
The standard input has one item a line:
  harts 2       the number of harts, 1 to 16
  steps 0 1 0   the hart that takes each step, in order; only steps if none takes any
  00500093      then the instructions, one word of eight hexadecimal digits a line
The words lie from address 00010000 on, and at 00020000 there are 4096 bytes of zeros.
The output is a line for each hart with the registers that are not 0, and a line with the bytes printed.

Example:
  printf 'harts 1\\nsteps 0\\n00500093\\n' | rvcollide words";

/// What the help of `asm` says after its arguments.
const SOURCES: &str = "\
A source has one statement a line, after a label if need be, and # starts a comment:
  loop: addi x5, x5, -1     # registers are x0 to x31, or by their ABI names
Instructions are written as in the RISC-V manual: RV32IMA, and nop, mv, j, ret, li and la.
Directives: .text, .data, .word, .byte and .zero; .globl is accepted and does nothing.
The text lies at 00010000 and the data at 00020000. All harts start at _start, or else at 00010000.

Example:
  rvcollide asm guest.s guest.elf";

/// What the help of `list` says after its arguments.
const IMAGES: &str = "\
An image is an executable for RV32IMA, statically linked at fixed addresses, little-endian:
  made by       rvcollide asm, or a C compiler with -march=rv32ima -static
  size          at most 67108864 bytes in the file and 16777216 in memory
  kept clear    c0000000 to c00fffff, where each hart has its stack
  used          its segments and entry point; its symbols, where it has any, name places in reports
The output is a line for each word of the segments that may be executed:
  00010000: 00020337 lui x6, 0x20

Example:
  rvcollide list guest.elf";

/// What the help of `replay` says after its arguments.
const SCHEDULES: &str = "\
A schedule is what run --save, threads --save and hunt --save-to write. After two lines that name the
format and the plan each line is an entry:
  a 00010004    the instruction at this address is armed (d: disarmed)
  s 0           hart 0 takes a step
  p 0 2         hart 0 is paused before an armed access, which slot 2 watches (-: none was free)
  r 0           hart 0 goes on
  end           the last line
The output is a line for each pause, in the order in which they ended, with the number of the ending,
then a line for each hart and one with the bytes printed. A pause ended with a hit (another hart's
access), changed (other bytes, but no access was seen) or quiet.

Example:
  rvcollide replay guest.elf guest.schedule";

/// What the help of `debug` says of the debugger's commands.
const DEBUGGER: &str = "\
Place N is the state after the first N entries of the schedule. The session starts at place 0.
Each line of the standard input is a command:
  g N           go to place N, as in g 4; the answer is the place: at 4
  f             go one place forwards: at 5
  b             go one place back: at 4
  x H           show the registers of hart H, as in x 0: hart 0 running pc 00010004 x2 c0010000
  m ADDR LEN    show LEN bytes of memory, 1 to 256, as in m 00020000 4: 00020000: 01 00 00 00
  l ADDR COUNT  disassemble COUNT words, 1 to 64, as in l 00010000 1: 00010000: 00020337 lui x6, 0x20
  w ADDR        find the next entry that touches the byte and go to the place after it, as in
                w 00020000: found 4
  q             quit, as the end of the input does

Numbers are decimal without leading zeros, addresses eight hexadecimal digits. A command that is refused
leaves the place as it was. The answer is one of these lines:
  fault 0 Command  the line is not a command    fault 3 NoBytes   no memory there, or misaligned
  fault 1 NoPlace  the schedule is shorter      fault 4 NotFound  no such entry from here on
  fault 2 NoHart   the machine has fewer harts  fault 5 NoMemory  there is not enough memory

Example:
  printf 'g 63\\nx 1\\n' | rvcollide debug guest.elf guest.schedule";

/// What the help of `run` says after its options.
const CAMPAIGN: &str = "\
Runs are numbered from 0. The random choices of a run depend only on the seed and its number, so the same
command prints the same table, with any number of workers. Use as many workers as there are idle cores.
IMAGE is as rvcollide list --help says. An address of --skip is eight hexadecimal digits.

The output is a row for each pair of instructions that raced, in the order of their first report, with
the number of reports and the run and entry of the first, then how many reports were left out: those on
the bytes of --named, on flags and on counters (a counter may be a bug: rvcollide hunt shows it):
  races 1
  00010054 00010074 count 187 run 0 entry 63 hit old 00000000 new 00000001
  pruned named 0 flag 0 counter 0

Example:
  rvcollide run guest.elf --harts 2 --steps 10000 --arms 50 --pause 20 --seed 1 --runs 100 --workers 4";

/// What the help of `threads` says after its options.
const BY_THREADS: &str = "\
Each hart takes its steps in a thread of its own. The seed decides which addresses are armed, but the
host's scheduler decides which hart goes next, so the same command may print something else next time.
The schedule of --save holds the whole run: replay makes it again with the same endings, debug shows its
places, explain and exhibit its races. IMAGE is as rvcollide list --help says.

The output is a line for each pause, as replay prints it, and the number of turns that were taken.

Example:
  rvcollide threads guest.elf --harts 2 --steps 10000 --arms 50 --pause 20 --seed 1 --save run.txt";

/// What the help of `exhibit` says after its arguments.
const EXHIBIT: &str = "\
Prints the two accesses that met, and the harts that take the steps from the start, in order, on a plain
machine without breakpoints or pauses. The last two steps make the two accesses:
  first pc 00010004 store 00020000 4
  second pc 00010004 store 00020000 4
  steps 0 1 1 0
IMAGE is as rvcollide list --help says, SCHEDULE as rvcollide replay --help says.

A report that cannot be shown is refused with one of these names, as in exhibit NotReport:
  NoEnding     the schedule has no such ending
  NotReport    the ending is quiet
  TextChanged  the paused instruction was overwritten before the second access

Example:
  rvcollide exhibit guest.elf run.txt 0";

/// What the help of `explain` says after its arguments.
const EXPLAIN: &str = "\
For each race it prints both instructions with their symbols, what each hart did or was about to do, who
called it, the bytes before and after, and the entries of the schedule around them. Endings have the
numbers that replay prints and exhibit takes. IMAGE is as rvcollide list --help says, SCHEDULE as
rvcollide replay --help says, the file of --lines as rvcollide hunt --help says.

A fault is told with its file and what is wrong:
  rvcollide: run.txt: explain NoRace of 2: there is no race with this number

Example:
  rvcollide explain guest.elf run.txt --picture race.svg";

/// What the help of `gdb` says after its arguments.
const GDB: &str = "\
GDB starts this command itself and speaks its remote protocol with it. Type this line, with your files:
  gdb-multiarch IMAGE -ex 'set remotetimeout 60' \\
    -ex 'target remote | rvcollide gdb IMAGE SCHEDULE' -ex 'set scheduler-locking step'
Each hart is a thread. The run is a record: it goes forwards and backwards, and nothing in it can be
changed. IMAGE is as rvcollide list --help says, SCHEDULE as rvcollide replay --help says.

A fault is told with its file and what is wrong:
  rvcollide: guest.elf: load NotRiscV: the file is for another processor

Example:
  gdb-multiarch guest.elf -ex 'set remotetimeout 60' \\
    -ex 'target remote | rvcollide gdb guest.elf run.txt' -ex 'set scheduler-locking step'";

/// What the help of `hunt` says after its options.
const HUNT: &str = "\
The same options print the same text, with any number of workers. A warning on the standard error says
that a clean answer means little here, why, and what to do. IMAGE is as rvcollide list --help says.

The output is a report of each race, as explain prints it, then how the harts ended and what was seen:
  races 1, likely benign 0, reports 13 of 84 endings in 3 runs
A line of a list is two sides: each a function's name, an address of eight hexadecimal digits, or * for any
instruction. It may go on with on and a variable's name; a word that begins with # begins a comment. --list
writes such lines, --ignore takes them, and --expect takes them or a table, the output of hunt --table, of
merge or of run. A race that --expect lacks and that may be a bug is marked new. --save-to takes a folder that
is there and has no such schedule; explain, replay, debug, exhibit and gdb read the schedules. rvcollide-lines
IMAGE > FILE asks addr2line of binutils for the source line of each instruction: of --lines reports have files,
lines and inlined functions, and lists know an instruction by each of its functions.

A fault is told with its file and what is wrong:
  rvcollide: guest.elf: load NotRiscV: the file is for another processor

Example:
  rvcollide hunt guest.elf --budget 200000000 --check";

/// What the help of `merge` says after its arguments.
const MERGE: &str = "\
The pieces are hunts of one image with the same options but for --first and --runs. Their tables, in
whatever order, make the table of the whole hunt, byte for byte. The output is that table. The last line
of a table says what it is of: tables of two images, versions or options are refused, and so are runs
that two tables have, or that are missing between them. --expect stands before the tables or behind
them, --gaps before all or behind all.

A fault is told with its file and what is wrong, as in b.table: table line 2 Shape.

Example:
  rvcollide merge a.table b.table --expect known.table";

/// What the help of `show` says after its arguments.
const SHOW: &str = "\
The last line of the table says how its runs are made: with which seed, harts, plan, slots and lists. show makes
the run of each row again and writes of the races what hunt writes: an index, a report of each, a page and
schedules. It tries no orders, and how harts ended is in no table. The output begins with a line such as
  races 1, likely benign 0, reports 13 in 3 runs
A table of another image, or of another version of rvcollide, is refused. Files of --lines, --ignore, --expect
and --list are as rvcollide hunt --help says.

A fault is told with its file and what is wrong, as in all.table: table line 2 NotMet.

Example:
  rvcollide show guest.elf all.table --page races.html --expect known.list";
