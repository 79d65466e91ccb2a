//! Which threads a user has chosen, as `specs/Chosen.antt` has it.
ghost use Rattle.std.specs.Prelude.{◌≡◌, ◌<◌};
ghost use Rattle.rv_gdb.specs.Chosen as spec;

use crate::fields::Id;
use crate::packet::Request;

/// The harts that a talk is about: thread t is hart t - 1, and no hart stands for any.
#[derive(Clone, Copy)]
pub struct Chosen {
    /// The hart that was told or asked for last.
    pub focus: u8,
    /// The hart whose state is shown; the focus in place of any.
    pub shown: Option<u8>,
    /// The hart that goes on alone.
    pub going: Option<u8>,
}

impl Chosen {
    /// What is chosen before the first packet.
    pub fn new() -> Chosen
        ensures { result ≡ spec.at_first }
    {
        Chosen {
            focus: 0,
            shown: None,
            going: None,
        }
    }

    /// The hart whose state is shown.
    pub fn standing(&self) -> u8
        ensures { result ≡ spec.standing self.now }
    {
        self.shown.unwrap_or(self.focus)
    }

    /// After a stop of a hart.
    pub fn stopped(&self, hart: u8) -> Chosen
        ensures { result ≡ spec.stopped self.now hart }
    {
        Chosen {
            focus: hart,
            shown: Some(hart),
            going: self.going,
        }
    }
}

/// The hart of a thread of so many.
pub(crate) fn hart_of(harts: u8, thread: u32) -> Option<u8>
    ensures { result ≡ spec.hart_of harts thread }
{
    if thread == 0 || thread > u32::from(harts) {
        return None;
    }
    Some((thread - 1) as u8)
}

/// The hart that a packet names, or any; None where there is no such thread.
pub fn aim_of(harts: u8, id: Id) -> Option<Option<u8>>
    ensures { result ≡ spec.aim_of harts id }
{
    match id {
        Id::Any => Some(None),
        Id::Thread(thread) => match hart_of(harts, thread) {
            Some(hart) => Some(Some(hart)),
            None => None,
        },
    }
}

/// Whether a request chooses a thread.
pub fn chooses(request: &Request<'_>) -> bool
    ensures { result ≡ spec.chooses request.now }
{
    matches!(
        request,
        Request::IsAlive(_) | Request::Show(_) | Request::Choose(_)
    )
}

/// What is chosen after a request, among so many harts. None where there is no such thread.
pub fn choose(harts: u8, chosen: &Chosen, request: &Request<'_>) -> Option<Chosen>
    ensures { result ≡ spec.choice harts chosen.now request.now }
{
    match request {
        Request::IsAlive(id) => {
            let focus = aim_of(harts, *id)??;
            Some(Chosen {
                focus,
                shown: chosen.shown,
                going: chosen.going,
            })
        }
        Request::Show(id) => Some(Chosen {
            focus: chosen.focus,
            shown: aim_of(harts, *id)?,
            going: chosen.going,
        }),
        Request::Choose(id) => Some(Chosen {
            focus: chosen.focus,
            shown: chosen.shown,
            going: aim_of(harts, *id)?,
        }),
        _ => None,
    }
}
