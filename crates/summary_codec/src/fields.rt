//! Fields of a summary file, from the left.

ghost use Rattle.std.specs.Prelude.{◌≡◌, ◌≢◌, ◌≤◌, ◌<◌, ◌^◌, ◌++◌, ◌↔◌, ℕ, List, true, false, length, Ok, Err, IfOk, IfErr, OnOk, IsTrue};
ghost use Rattle.std.specs.Int.{bytes_high_first};
ghost use Rattle.summary_codec.specs.Reading.{taken, number, number_within, sized, ended, opened};
ghost use Rattle.summary_codec.specs.Versions.{opening};

use crate::error::SummaryError;
use crate::version::Version;
use byteorder::{BigEndian, ByteOrder};
use std::marker::Model;

/// The bytes that are still to be read.
#[derive(Drop)]
pub(crate) struct Fields<'a> {
    left: &'a [u8],
}

impl<'a> Model for Fields<'a> {
    ghost Value = { List ℕ };

    ghost view = { λ f. f.left.now };
}

/// The number that bytes spell, of which there are 1 to 8.
fn spelled(bytes: &[u8]) -> u64
    requires some { 1 ≤ length bytes.now }
    requires few { length bytes.now ≤ 8 }
    ensures spelled { bytes.now ≡ bytes_high_first (length bytes.now) result }
    ensures fits { result < 256 ^ length bytes.now }
{
    BigEndian::read_uint(bytes, bytes.len())
}

impl<'a> Fields<'a> {
    /// All of these bytes.
    pub(crate) fn new(bytes: &'a [u8]) -> Fields<'a>
        ensures { result ≡ bytes.now }
    {
        Fields { left: bytes }
    }

    /// The same bytes, for who may have to come back.
    pub(crate) fn ahead(&self) -> Fields<'a>
        ensures { result ≡ self.now }
    {
        Fields { left: self.left }
    }

    /// Goes on with what others have left.
    pub(crate) fn go_on(&mut self, ahead: &Fields<'a>)
        ensures { self.new ≡ ahead.now }
    {
        self.left = ahead.left;
    }

    /// So many bytes.
    pub(crate) fn take(&mut self, count: usize) -> Result<&'a [u8], SummaryError>
        ensures taken { IfOk result (λ front. taken count self.old (Ok (front.now, self.new))) }
        ensures short { IfErr result (λ e. taken count self.old (Err e)) }
    {
        let Some((front, rest)) = self.left.split_at_checked(count) else {
            return Err(SummaryError::Truncated);
        };
        self.left = rest;
        Ok(front)
    }

    /// A number of so many bytes, 1 to 8.
    #[tactic(auto, unfolding(crate::specs::Reading::number))]
    pub(crate) fn number(&mut self, width: usize) -> Result<u64, SummaryError>
        requires some { 1 ≤ width }
        requires few { width ≤ 8 }
        ensures read { IfOk result (λ n. number width self.old (Ok (n, self.new))) }
        ensures short { IfErr result (λ e. number width self.old (Err e)) }
    {
        let bytes = self.take(width)?;
        Ok(spelled(bytes))
    }

    /// A number of so many bytes, 1 to 8, that is not above another.
    #[tactic(auto, unfolding(crate::specs::Reading::number_within))]
    pub(crate) fn number_within(&mut self, width: usize, most: u64) -> Result<u64, SummaryError>
        requires some { 1 ≤ width }
        requires few { width ≤ 8 }
        ensures read { IfOk result (λ n. number_within width most self.old (Ok (n, self.new))) }
        ensures within { IfOk result (λ n. n ≤ most) }
        ensures fault { IfErr result (λ e. number_within width most self.old (Err e)) }
    {
        let number = self.number(width)?;
        if number > most {
            return Err(SummaryError::OutOfRange);
        }
        Ok(number)
    }

    /// Bytes behind their length.
    #[tactic(auto, unfolding(crate::specs::Reading::sized))]
    pub(crate) fn sized(&mut self) -> Result<&'a [u8], SummaryError>
        ensures read { IfOk result (λ bytes. sized self.old (Ok (bytes.now, self.new))) }
        ensures short { IfErr result (λ e. sized self.old (Err e)) }
    {
        let length = self.number(2)?;
        self.take(length as usize)
    }

    /// Whether what a file of a version begins with is there. If so, it is taken.
    fn opens(&mut self, version: Version) -> bool
        ensures opens { result ≡ true → self.old ≡ opening version ++ self.new }
        ensures other { result ≡ false → (self.new ≡ self.old)
            × ((rest : List ℕ) → self.old ≢ opening version ++ rest) }
    {
        match self.left.strip_prefix(version.opening()) {
            Some(rest) => {
                self.left = rest;
                true
            }
            None => false,
        }
    }

    /// Whether a file of a version may go on behind these bytes, which are the front of what it begins with.
    fn is_front(&self, version: Version) -> bool
        ensures { IsTrue result ↔ ((more : List ℕ) × (opening version ≡ self.now ++ more)) }
    {
        version.opening().starts_with(self.left)
    }

    /// What a file begins with, which tells its version.
    pub(crate) fn open(&mut self) -> Result<Version, SummaryError>
        ensures opened { IfOk result (λ version. opened self.old (Ok (version, self.new))) }
        ensures fault { IfErr result (λ e. opened self.old (Err e)) }
    {
        if self.opens(Version::Second) {
            return Ok(Version::Second);
        }
        if self.opens(Version::First) {
            return Ok(Version::First);
        }
        if self.is_front(Version::Second) {
            return Err(SummaryError::Truncated);
        }
        if self.is_front(Version::First) {
            return Err(SummaryError::Truncated);
        }
        Err(SummaryError::NotASummary)
    }

    /// Nothing follows.
    pub(crate) fn end(&mut self) -> Result<(), SummaryError>
        ensures ended { OnOk result (ended self.old (Ok (tt, self.new))) }
        ensures fault { IfErr result (λ e. ended self.old (Err e)) }
    {
        if self.left.is_empty() {
            return Ok(());
        }
        Err(SummaryError::Trailing)
    }
}
