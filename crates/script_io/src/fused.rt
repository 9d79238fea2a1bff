//! A stream that stays failed.

ghost use Rattle.std.specs.Prelude.{◌≡◌, ◌<◌, None, IfOk, IfSome, Err, length};
ghost use Rattle.std.specs.Io.{ReadsAtMost, WritesAtMost};
ghost use Rattle.std.specs.Io.KnownBytes.{Keeps, ReadConsumes, WriteAppends};
ghost use Rattle.std.specs.Result.{result_err};

use std::io;
use std::io::{Error, ErrorKind, Read, Write};

/// A reader or a writer that stays failed. A call may fail, be interrupted, or take none of the bytes offered. Then every later call
/// returns the same error and does not call the underlying stream. So a caller can ask afterwards whether a call failed, and why.
#[derive(Drop)]
pub struct Fused<S> {
    stream: S,
    fault: Option<io::Error>,
}

impl<S> Fused<S> {
    ghost use Rattle.script_io.specs.Fused.{behind, fault_of};

    /// A stream of which no call has failed yet.
    pub fn new(stream: S) -> Fused<S>
        ensures behind { behind result ≡ stream }
        ensures sound { fault_of result ≡ None }
    {
        Fused {
            stream,
            fault: None,
        }
    }

    /// Why a call failed, if one did.
    pub fn fault(&self) -> Option<io::Error>
        ensures { result ≡ fault_of self.now }
    {
        self.fault
    }
}

impl<R: Read> Read for Fused<R> {
    ghost use Rattle.script_io.specs.Fused.{behind, fault_of, unread};

    ghost remaining = { unread R.remaining };

    fn read(&mut self, buf: &mut [u8]) -> io::Result<usize>
        ensures bound { ReadsAtMost result buf.new }
        ensures bytes { ReadConsumes (unread R.remaining self.old) (unread R.remaining self.new) result buf.new }
        ensures fault { fault_of self.new ≡ result_err result }
        ensures stays { IfSome (fault_of self.old)
            (λ error. (result ≡ Err error) × (behind self.new ≡ behind self.old)) }
    {
        if let Some(error) = self.fault {
            return Err(error);
        }
        let outcome = self.stream.read(buf);
        self.fault = outcome.err();
        outcome
    }
}

impl<W: Write> Write for Fused<W> {
    ghost use Rattle.script_io.specs.Fused.{behind, fault_of, written};

    ghost contents = { written W.contents };

    fn write(&mut self, buf: &[u8]) -> io::Result<usize>
        ensures bound { WritesAtMost result buf.now }
        ensures bytes { WriteAppends (written W.contents self.old) (written W.contents self.new) result buf.now }
        ensures takes { IfOk result (λ count. 0 < length buf.now → 0 < count) }
        ensures fault { fault_of self.new ≡ result_err result }
        ensures stays { IfSome (fault_of self.old)
            (λ error. (result ≡ Err error) × (behind self.new ≡ behind self.old)) }
    {
        if let Some(error) = self.fault {
            return Err(error);
        }
        let taken = match self.stream.write(buf) {
            Ok(0) if !buf.is_empty() => Err(Error::from(ErrorKind::WriteZero)),
            outcome => outcome,
        };
        self.fault = taken.err();
        taken
    }

    fn flush(&mut self) -> io::Result<()>
        ensures bytes { Keeps (written W.contents self.old) (written W.contents self.new) }
        ensures fault { fault_of self.new ≡ result_err result }
        ensures stays { IfSome (fault_of self.old)
            (λ error. (result ≡ Err error) × (behind self.new ≡ behind self.old)) }
    {
        if let Some(error) = self.fault {
            return Err(error);
        }
        let flushed = self.stream.flush();
        self.fault = flushed.err();
        flushed
    }
}
