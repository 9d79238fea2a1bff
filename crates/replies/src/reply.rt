//! The reply to a command.

ghost use Rattle.std.specs.Prelude.{◌≡◌};
ghost use Rattle.replies.specs.Text.{is_refusal};

use refusals::Refusal;
use replica_merge::Delivered;

/// The reply to a command.
#[derive(Drop)]
pub enum Reply<'c> {
    /// How many columns there are.
    Columns(usize),
    /// The query, in its canonical text.
    Query(String),
    /// The limit, in bytes.
    Limit(u64),
    /// A replica of this name was made.
    Created(&'c [u8]),
    /// What became of a batch.
    Delivered(Delivered),
    /// A replica now also knows what another knows.
    Merged,
    /// A replica was saved as a file of this many bytes.
    Saved(usize),
    /// A replica was loaded.
    Loaded,
    /// What a replica knows, in its lines.
    Listed(Vec<u8>),
    /// An answer: how many rows it has, and its table.
    Answer { rows: usize, table: Vec<u8> },
    /// The command changed nothing.
    Refused(Refusal),
}

impl Reply<'_> {
    /// Whether the command was refused.
    pub fn is_refused(&self) -> bool
        ensures { result ≡ is_refusal self.now }
    {
        matches!(self, Reply::Refused(_))
    }
}
