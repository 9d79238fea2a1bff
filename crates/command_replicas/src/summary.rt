//! Summary files as commands write them.

ghost use Rattle.std.specs.Prelude.{◌≡◌};
ghost use Rattle.command_replicas.specs.Commands.{IsReadable};

use std::marker::Model;

/// The bytes of a replica's summary file, at most 67,108,864, which can be loaded again. Only [`save`](crate::save) makes one, so a
/// function that takes one writes nothing else.
#[derive(Drop)]
pub struct SummaryFile {
    bytes: Vec<u8>,
}

impl Model for SummaryFile {
    ghost use Rattle.std.specs.Prelude.{ℕ, List};
    ghost use Rattle.command_replicas.specs.Commands.{IsReadable};

    ghost Value = { List ℕ };

    ghost view = { λ file. file.bytes.items };

    ghost invariant = { λ file. IsReadable file.bytes.items };
}

impl SummaryFile {
    /// The file of these bytes.
    pub(crate) fn new(bytes: Vec<u8>) -> SummaryFile
        requires { IsReadable bytes.items }
        ensures { result ≡ bytes.items }
    {
        SummaryFile { bytes }
    }

    /// The bytes.
    pub fn bytes(&self) -> &[u8]
        ensures bytes { result.now ≡ self.now }
        ensures readable { IsReadable self.now }
    {
        &self.bytes
    }
}
