//! Trials by name.

use crate::calls::{answer, deliver, keep, merge, read};
use crate::met::Met;
use crate::sites::Site;
use replies::Refusal;
use test_cases::Room;

/// A call that is made in a room, and again where it is refused.
#[derive(Clone, Copy)]
pub(crate) enum Trial {
    /// A batch is delivered.
    Deliver,
    /// A replica is merged into another one.
    Merge,
    /// A replica answers.
    Answer,
    /// A replica is saved.
    Save,
    /// A replica is loaded.
    Load,
}

impl Trial {
    /// Makes the trial over a site, with a limit of the memory of its tables.
    pub(crate) fn run(
        self,
        rt: HostRuntime,
        site: &Site,
        limit: u64,
        room: &mut Room<'_>,
    ) -> Result<Met, Refusal> {
        match self {
            Trial::Deliver => deliver(rt, site, limit, room),
            Trial::Merge => merge(rt, site, limit, room),
            Trial::Answer => answer(rt, site, room),
            Trial::Save => keep(rt, site, room),
            Trial::Load => read(rt, site, room),
        }
    }
}
