//! Writes bytes.

ghost use Rattle.script_io.specs.Output.{IsPut};

use crate::fused::Fused;
use std::io::Write;
use thiserror::Error;

/// The writer failed, was interrupted or took no byte.
#[derive(Debug, Drop, Error)]
#[error("the output could not be written")]
pub struct WriteFault;

/// Writes these bytes, in as many calls of `write` as the writer needs. It does not flush.
///
/// After an error the writer took a prefix of the bytes, without at least the last one. A failed write is not retried,
/// even if it was interrupted: the result is then `WriteFault`, and only then. To write no bytes makes no call of
/// `write`.
pub fn put_all<W: Write>(writer: &mut Fused<W>, bytes: &[u8]) -> Result<(), WriteFault>
    ensures { IsPut W.contents writer.old writer.new result bytes.now }
{
    let mut at = 0;
    while at < bytes.len() {
        match writer.write(&bytes[at..]) {
            Ok(count) => at += count,
            Err(_) => return Err(WriteFault),
        }
    }
    Ok(())
}
