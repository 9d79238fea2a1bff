//! The last refusal, and its reason.

use engine::Refusal;
use sentences::Reason;

/// What a call asked that was refused for a reason.
#[derive(Clone, Copy, PartialEq, Eq)]
pub enum Asked {
    /// To open a session of two texts.
    Create,
    /// To open the session of a summary file.
    Load,
    /// To feed a batch file, or rows.
    Feed,
    /// To merge a summary file, or another session.
    Merge,
    /// To save the summary file.
    Save,
}

/// The reason of a refusal, and what the call asked.
#[derive(Drop)]
pub(crate) struct CallReason {
    pub(crate) asked: Asked,
    pub(crate) reason: Reason,
}

/// A refusal, and its reason, if there was memory for it.
#[derive(Drop)]
pub(crate) struct Last {
    pub(crate) why: Refusal,
    pub(crate) reason: Option<CallReason>,
}
