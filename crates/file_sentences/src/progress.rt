//! The progress of a command, and what it took.

use sentences::Plain;
use std::fmt;

/// The progress of a command: a file that was taken, its place among all files, and the reply to it.
#[derive(Clone, Copy)]
pub struct Progress<'p> {
    pub place: usize,
    pub files: usize,
    pub path: &'p str,
    pub reply: &'p str,
}

impl fmt::Display for Progress<'_> {
    fn fmt<W: fmt::Write>(&self, f: &mut fmt::Formatter<W>) -> fmt::Result {
        let (place, files) = (self.place, self.files);
        let (path, reply) = (Plain(self.path), self.reply);
        write!(f, "{place} of {files} {path}: {reply}")
    }
}

/// OUT was written, though files were skipped.
#[derive(Clone, Copy)]
pub struct PassedOver<'p> {
    pub out: &'p str,
    pub passed: usize,
    pub files: usize,
}

impl fmt::Display for PassedOver<'_> {
    fn fmt<W: fmt::Write>(&self, f: &mut fmt::Formatter<W>) -> fmt::Result {
        let (out, passed, files) = (Plain(self.out), self.passed, self.files);
        write!(f, "{out}: written; files skipped: {passed} of {files}")
    }
}

/// What the aggregations took, and the limit.
#[derive(Clone, Copy)]
pub struct Explained {
    pub passes: u64,
    pub spilled: u128,
    pub pages: u64,
    pub held: u64,
    pub limit: u64,
}

impl fmt::Display for Explained {
    fn fmt<W: fmt::Write>(&self, f: &mut fmt::Formatter<W>) -> fmt::Result {
        let (passes, spilled, pages) = (self.passes, self.spilled, self.pages);
        let (held, limit) = (self.held, self.limit);
        write!(
            f,
            "passes {passes} spilled {spilled} pages {pages} held {held} limit {limit}"
        )
    }
}
