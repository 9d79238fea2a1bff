//! Summary files that nobody's batches gave.

use crate::files::number;
use std::alloc::AllocError;
use std::io::{Error, ErrorKind};
use std::{fs, io};

/// A summary whose origins count as many rows as they may.
#[derive(Clone, Copy)]
pub(crate) struct Full {
    opening: &'static [u8],
    query: &'static [u8],
    /// The prefix, which is the last number, one group without a key, and no early batch.
    origin: &'static [u8],
}

/// One of the first version, of `count(*)`.
pub(crate) const FIRST: Full = Full {
    opening: b"AGGSUM01",
    query: b"SELECT count(*) FROM batches",
    origin: b"\x7f\xff\xff\xff\x00\x00\x00\x00\x00\x00\x00\x01\x00\x00\x00\x00\x7f\xff\xff\xff\x00\x00\
        \x00\x00\x00\x00",
};

/// One of the second version, of `count(*)` and of the sum of as many of the least numbers.
pub(crate) const SECOND: Full = Full {
    opening: b"AGGSUM02",
    query: b"SELECT count(*), sum(d) FROM batches",
    origin: b"\xff\xff\xff\xff\x00\x00\x00\x00\x00\x00\x00\x01\x00\x00\x00\x0f\xff\xff\xff\xf0\x00\x00\
        \x00\x0f\xff\xff\xff\xf0\x00\x00\xff\xf8\x00\x00\x00\x08\x00\x00\x00\x00\x00\x00\x00\x00\x00\x00\
        \x00\x00\x00\x00",
};

/// Appends a text behind its length.
fn push_text(bytes: &mut Vec<u8>, text: &[u8]) -> Result<(), AllocError> {
    let length = u16::try_from(text.len()).unwrap_or(0);
    bytes.extend_from_slice(&length.to_be_bytes())?;
    bytes.extend_from_slice(text)
}

/// Makes a summary file in which so many origins count as many rows as they may.
pub(crate) fn write_origins(
    rt: &HostRuntime,
    file: &str,
    full: &Full,
    told: &str,
) -> io::Result<bool> {
    let origins = u16::try_from(number(told)?).unwrap_or(0);
    let mut bytes = Vec::new(rt.alloc());
    bytes.extend_from_slice(full.opening)?;
    push_text(&mut bytes, b"d bigint")?;
    push_text(&mut bytes, full.query)?;
    bytes.extend_from_slice(&origins.to_be_bytes())?;
    for origin in 0..origins {
        bytes.extend_from_slice(&origin.to_be_bytes())?;
        bytes.extend_from_slice(full.origin)?;
    }
    fs::write(rt, file, bytes.as_slice())?;
    Ok(true)
}

/// Makes a summary file of the first version of one of the second: they differ in a digit.
pub(crate) fn write_first(rt: &HostRuntime, file: &str, second: &str) -> io::Result<bool> {
    let read = fs::read(rt, second)?;
    let Some(behind) = read.strip_prefix(SECOND.opening) else {
        return Err(Error::from(ErrorKind::InvalidData));
    };
    let mut bytes = Vec::new(rt.alloc());
    bytes.extend_from_slice(FIRST.opening)?;
    bytes.extend_from_slice(behind)?;
    fs::write(rt, file, bytes.as_slice())?;
    Ok(true)
}
