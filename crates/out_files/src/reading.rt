//! The bytes of a file.

ghost use Rattle.std.specs.Prelude.{◌≡◌, ◌≤◌, IfOk, length, true, false};
ghost use Rattle.out_files.specs.Reading.{GaveAll, HadOthers, ReadsFront};

use std::fs::File;
use std::io::Read;
use std::rt::Files;
use std::{fs, io};

/// How many bytes one call of `read` asks for.
const CHUNK_BYTES: usize = 8192;

/// Whether a reader gives these bytes, and no more.
pub fn gives<F: Read>(reader: &mut F, bytes: &[u8]) -> io::Result<bool>
    ensures same { IfOk result (λ same. same ≡ true → GaveAll (F.remaining reader.old) (F.remaining reader.new) bytes.now) }
    ensures other { IfOk result (λ same. same ≡ false → HadOthers (F.remaining reader.old) bytes.now) }
{
    let mut chunk = [0u8; CHUNK_BYTES];
    let mut left = bytes;
    loop {
        let count = reader.read(&mut chunk)?;
        if count == 0 {
            return Ok(left.is_empty());
        }
        match left.strip_prefix(&chunk[..count]) {
            Some(rest) => left = rest,
            None => return Ok(false),
        }
    }
}

/// Whether the file of a path has these bytes. A file that does not exist has none.
pub(crate) fn has_bytes<R: Files>(rt: &R, path: &str, bytes: &[u8]) -> io::Result<bool> {
    match fs::open(rt, path) {
        Ok(mut file) => gives(&mut file, bytes),
        Err(error) if error.kind() == io::ErrorKind::NotFound => Ok(false),
        Err(error) => Err(error),
    }
}

/// Reads the first bytes that a reader has left, as many as there is room for, in as many calls of `read` as that needs, and answers how
/// many it gave: fewer only where it has no more. After an error those that it gave are lost.
pub fn front_from<F: Read>(reader: &mut F, front: &mut [u8]) -> io::Result<usize>
    ensures bound { IfOk result (λ count. count ≤ length front.new) }
    ensures read { ReadsFront (F.remaining reader.old) (F.remaining reader.new) result front.new }
{
    let mut count = 0;
    while count < front.len() {
        let more = reader.read(&mut front[count..])?;
        if more == 0 {
            return Ok(count);
        }
        count += more;
    }
    Ok(count)
}

/// Reads the first bytes of a file, as [`front_from`] reads them of a reader, and answers how many they are. No clause can name the bytes
/// of a file of the system.
pub fn front_of<R: Files>(rt: &R, path: &str, front: &mut [u8]) -> io::Result<usize>
    ensures bound { IfOk result (λ count. count ≤ length front.new) }
{
    let mut file: R::File = File::open(rt, path)?;
    front_from(&mut file, front)
}
