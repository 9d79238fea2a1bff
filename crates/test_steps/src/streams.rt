//! The streams of a command: sound ones, and ones that fail.

use std::alloc::Global;
use std::io;
use std::io::{Error, ErrorKind, Read, Write};

/// What the streams of a command are.
#[derive(Clone, Copy)]
pub enum Kind {
    /// All are sound.
    Sound,
    /// Standard input fails at once.
    Unread,
    /// Standard output takes three bytes, and then fails.
    Short,
    /// Nobody reads standard output.
    Closed,
    /// Before what each write gives a stream stands a bar.
    Barred,
    /// The same, and both are terminals.
    Terminal,
    /// The same, and standard error alone is a terminal.
    Watched,
}

impl Kind {
    /// A kind by its name.
    pub fn named(name: &str) -> Option<Kind> {
        match name {
            "" => Some(Kind::Sound),
            "unread" => Some(Kind::Unread),
            "short" => Some(Kind::Short),
            "closed" => Some(Kind::Closed),
            "barred" => Some(Kind::Barred),
            "terminal" => Some(Kind::Terminal),
            "watched" => Some(Kind::Watched),
            _ => None,
        }
    }

    /// Whether standard output is a terminal.
    pub fn has_terminal_output(self) -> bool {
        matches!(self, Kind::Terminal)
    }

    /// Whether standard error is a terminal.
    pub fn has_terminal_errors(self) -> bool {
        matches!(self, Kind::Terminal | Kind::Watched)
    }

    /// Whether a bar stands before each write.
    fn has_bars(self) -> bool {
        matches!(self, Kind::Barred | Kind::Terminal | Kind::Watched)
    }
}

/// Bytes that are read, or a reader that fails.
#[derive(Drop)]
pub struct Input<'i> {
    left: &'i [u8],
    fails: bool,
}

impl<'i> Input<'i> {
    /// Standard input of these bytes.
    pub fn new(kind: Kind, bytes: &'i [u8]) -> Input<'i> {
        Input {
            left: bytes,
            fails: matches!(kind, Kind::Unread),
        }
    }
}

impl Read for Input<'_> {
    fn read(&mut self, buf: &mut [u8]) -> io::Result<usize> {
        if self.fails {
            return Err(Error::from(ErrorKind::Other));
        }
        self.left.read(buf)
    }
}

/// A writer that takes so many bytes, and then fails by an error of this kind.
#[derive(Drop)]
pub struct Output {
    pub taken: Vec<u8>,
    room: usize,
    failure: ErrorKind,
    has_bars: bool,
}

impl Output {
    /// Standard output.
    pub fn new(alloc: Global, kind: Kind) -> Output {
        let (room, failure) = match kind {
            Kind::Short => (3, ErrorKind::Other),
            Kind::Closed => (0, ErrorKind::BrokenPipe),
            _ => (usize::MAX, ErrorKind::Other),
        };
        Output {
            taken: Vec::new(alloc),
            room,
            failure,
            has_bars: kind.has_bars(),
        }
    }

    /// Standard error, which takes all.
    pub fn errors(alloc: Global, kind: Kind) -> Output {
        Output {
            taken: Vec::new(alloc),
            room: usize::MAX,
            failure: ErrorKind::Other,
            has_bars: kind.has_bars(),
        }
    }
}

impl Write for Output {
    fn write(&mut self, buf: &[u8]) -> io::Result<usize> {
        let count = buf.len().min(self.room.saturating_sub(self.taken.len()));
        if count == 0 && !buf.is_empty() {
            return Err(Error::from(self.failure));
        }
        if self.has_bars {
            self.taken.push(b'|')?;
        }
        self.taken.extend_from_slice(&buf[..count])?;
        Ok(count)
    }

    fn flush(&mut self) -> io::Result<()> {
        Ok(())
    }
}
