//! New files beside others.

use std::fs::File;
use std::io;
use std::io::ErrorKind;
use std::rt::Files;

/// How many names are tried for the new file that replaces an old one.
const MAX_ATTEMPTS: u32 = 100;

/// The folder of a path, as it is written, with its last slash.
fn folder_of(path: &str) -> &str {
    match path.rfind('/') {
        Some(end) => path.get(..end.saturating_add(1)).unwrap_or(""),
        None => "",
    }
}

/// Creates an empty file whose path begins so, and answers its path.
fn create_named<R: Files + AllocGlobal>(rt: &R, front: &str) -> io::Result<(String, R::File)> {
    for attempt in 0..MAX_ATTEMPTS {
        let beside = format!(in rt.alloc(); "{front}.part{attempt}")?;
        match File::create_new(rt, beside.as_str()) {
            Ok(file) => return Ok((beside, file)),
            Err(error) if error.kind() == ErrorKind::AlreadyExists => {}
            Err(error) => return Err(error),
        }
    }
    Err(io::Error::from(ErrorKind::AlreadyExists))
}

/// Creates an empty file beside that of a path, and answers its path: the same name with `.part0` after it, or `.agg_tool.part0` if that
/// would be too long.
pub(crate) fn create_beside<R: Files + AllocGlobal>(
    rt: &R,
    path: &str,
) -> io::Result<(String, R::File)> {
    match create_named(rt, path) {
        Err(error) if error.kind() == ErrorKind::InvalidFilename => {
            let front = format!(in rt.alloc(); "{}.agg_tool", folder_of(path))?;
            create_named(rt, front.as_str())
        }
        made => made,
    }
}
