//! Sentences on OUT: an existing file, and how it is written.

ghost use Rattle.std.specs.Prelude.{◌≡◌};
ghost use Rattle.out_files.specs.Fronts.{begins_as_batch, begins_as_summary, begins_as_version, kind_by_opening, kind_of_front};
ghost use Rattle.out_files.specs.Standing.{is_foreign, stops};

use sentences::Plain;
use std::fmt;

/// How many bytes of a file tell whether it begins as a summary does.
pub const FRONT_BYTES: usize = 8;

/// Whether bytes begin as a summary file does of a version that is read.
fn is_summary(front: &[u8]) -> bool
    ensures { result ≡ begins_as_summary front.now }
{
    front.starts_with(b"AGGSUM01") || front.starts_with(b"AGGSUM02")
}

/// Whether bytes begin as a summary file does of any version.
fn is_versioned(front: &[u8]) -> bool
    ensures { result ≡ begins_as_version front.now }
{
    front.len() >= FRONT_BYTES && front.starts_with(b"AGGSUM")
}

/// Whether bytes begin as a batch file does: with the first word in quotes or not.
fn is_batch(front: &[u8]) -> bool
    ensures { result ≡ begins_as_batch front.now }
{
    front.starts_with(b"batch,") || front.starts_with(b"\"batch\",")
}

/// What bytes tell of a file that has some.
fn kind_by_opening(front: &[u8]) -> FrontKind
    ensures { result ≡ kind_by_opening front.now }
{
    if is_summary(front) {
        FrontKind::Summary
    } else if is_versioned(front) {
        FrontKind::OtherVersion
    } else if is_batch(front) {
        FrontKind::Batch
    } else {
        FrontKind::Other
    }
}

/// What the first 8 bytes of a file tell of it, or all where it has fewer.
#[derive(Clone, Copy, PartialEq, Eq)]
pub enum FrontKind {
    /// There are none.
    Empty,
    /// It begins as a summary does.
    Summary,
    /// It begins as a summary of another version does.
    OtherVersion,
    /// It begins as a batch file does.
    Batch,
    /// It is something else.
    Other,
}

impl FrontKind {
    /// What first bytes tell.
    pub fn of_front(front: &[u8]) -> FrontKind
        ensures kind { result ≡ kind_of_front front.now }
    {
        if front.is_empty() {
            FrontKind::Empty
        } else {
            kind_by_opening(front)
        }
    }

    /// Whether a file is neither empty nor a summary that can be read.
    pub fn is_foreign(self) -> bool
        ensures { result ≡ is_foreign self }
    {
        !matches!(self, FrontKind::Empty | FrontKind::Summary)
    }
}

/// What happens to an existing OUT.
#[derive(Clone, Copy, PartialEq, Eq)]
pub enum Fate {
    /// It is not among the summaries and batch files read, and is kept, as the command was told.
    Kept,
    /// It is not among the summaries and batch files read, and will be replaced.
    Replaced,
    /// It is not a summary, and is kept.
    Spared(FrontKind),
    /// It is not a summary, and will be replaced, as the command was told.
    Forced,
    /// It is a terminal, and a summary is binary.
    Shown,
}

impl Fate {
    /// Whether the command stops.
    pub fn stops(self) -> bool
        ensures { result ≡ stops self }
    {
        matches!(self, Fate::Kept | Fate::Spared(_) | Fate::Shown)
    }

    /// What is said of OUT, behind its name.
    fn words(self) -> &'static str {
        match self {
            Fate::Kept => "exists: --no-clobber keeps it; nothing was read or written",
            Fate::Replaced => {
                "exists, is not an input, and will be REPLACED (--no-clobber keeps it)"
            }
            Fate::Spared(FrontKind::Batch) => {
                "exists and is a batch file, not a summary: OUT comes first; nothing was read or written (--force replaces it)"
            }
            Fate::Spared(FrontKind::OtherVersion) => {
                "exists and is a summary file of another version: nothing was read or written (--force replaces it)"
            }
            Fate::Spared(_) => {
                "exists and is not a summary: nothing was read or written (--force replaces it)"
            }
            Fate::Forced => "exists, is not a summary, and will be REPLACED (--force)",
            Fate::Shown => {
                "is a terminal, and a summary is binary: nothing was read or written (--force writes it there)"
            }
        }
    }
}

/// An existing OUT, and what happens to it.
#[derive(Clone, Copy)]
pub struct Standing<'p> {
    pub out: &'p str,
    pub fate: Fate,
}

impl fmt::Display for Standing<'_> {
    fn fmt<W: fmt::Write>(&self, f: &mut fmt::Formatter<W>) -> fmt::Result {
        let (out, words) = (Plain(self.out), self.fate.words());
        write!(f, "{out} {words}")
    }
}

/// OUT is overwritten in place.
#[derive(Clone, Copy)]
pub struct WrittenOver<'p> {
    pub out: &'p str,
}

impl fmt::Display for WrittenOver<'_> {
    fn fmt<W: fmt::Write>(&self, f: &mut fmt::Formatter<W>) -> fmt::Result {
        let out = Plain(self.out);
        write!(
            f,
            "{out}: no new file can replace it, so it is overwritten in place: a crash or a full disk may lose it"
        )
    }
}

/// A batch file without a line end at its end was taken.
#[derive(Clone, Copy)]
pub struct CutShort<'p> {
    pub path: &'p str,
}

impl fmt::Display for CutShort<'_> {
    fn fmt<W: fmt::Write>(&self, f: &mut fmt::Formatter<W>) -> fmt::Result {
        let path = Plain(self.path);
        write!(
            f,
            "{path}: the last line has no line end, so the file may be cut off; it was taken as it is"
        )
    }
}
