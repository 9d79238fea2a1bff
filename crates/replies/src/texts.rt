//! The lines of what is known, made in memory before they are written.

ghost use Rattle.std.specs.Prelude.{◌≡◌, ◌++◌, map, flat_map, decimal, IfOk, OnOk};
ghost use Rattle.replica_merge.specs.Replicas.{known_of};
ghost use Rattle.replies.specs.Text.{early_text, number_text, origin_text, origins_text, known_text};

use itoa::Buffer;
use replica_merge::KnownOrigin;
use std::alloc::{AllocError, Global};

/// Appends a number in decimal.
pub(crate) fn push_number(text: &mut Vec<u8>, number: usize) -> Result<(), AllocError>
    ensures { OnOk result (text.new.items ≡ text.old.items ++ decimal number) }
{
    text.extend_from_slice(Buffer::new().format(number).as_bytes())
}

/// Appends numbers, each after a space.
fn push_numbers(text: &mut Vec<u8>, numbers: &[u32]) -> Result<(), AllocError>
    ensures { OnOk result (text.new.items ≡ text.old.items ++ flat_map number_text numbers.now) }
{
    for number in numbers {
        text.push(b' ')?;
        push_number(text, *number as usize)?;
    }
    Ok(())
}

/// Appends the early numbers of an origin.
fn push_early(text: &mut Vec<u8>, early: &[u32]) -> Result<(), AllocError>
    ensures { OnOk result (text.new.items ≡ text.old.items ++ early_text early.now) }
{
    if early.is_empty() {
        return Ok(());
    }
    text.extend_from_slice(b" early")?;
    push_numbers(text, early)
}

/// Appends the line of an origin.
fn push_origin(text: &mut Vec<u8>, known: &KnownOrigin) -> Result<(), AllocError>
    ensures { OnOk result (text.new.items ≡ text.old.items ++ origin_text (known_of known.now)) }
{
    text.extend_from_slice(b"origin ")?;
    push_number(text, known.origin as usize)?;
    text.extend_from_slice(b" upto ")?;
    push_number(text, known.upto as usize)?;
    push_early(text, &known.early)?;
    text.push(b'\n')?;
    Ok(())
}

/// Appends a line for each origin.
fn push_origins(text: &mut Vec<u8>, list: &[KnownOrigin]) -> Result<(), AllocError>
    ensures { OnOk result (text.new.items
        ≡ text.old.items ++ origins_text (map known_of list.now)) }
{
    for known in list {
        push_origin(text, known)?;
    }
    Ok(())
}

/// A line for each origin: `origin O upto P`, and the numbers that came early after it.
pub(crate) fn list_origins(alloc: Global, list: &[KnownOrigin]) -> Result<Vec<u8>, AllocError>
    ensures { IfOk result (λ text. text.items ≡ origins_text (map known_of list.now)) }
{
    let mut text = Vec::new(alloc);
    push_origins(&mut text, list)?;
    Ok(text)
}

/// The same lines, after one that counts the origins.
pub(crate) fn list_known(alloc: Global, list: &[KnownOrigin]) -> Result<Vec<u8>, AllocError>
    ensures { IfOk result (λ text. text.items ≡ known_text (map known_of list.now)) }
{
    let mut text = Vec::new(alloc);
    text.extend_from_slice(b"known ")?;
    push_number(&mut text, list.len())?;
    text.push(b'\n')?;
    push_origins(&mut text, list)?;
    Ok(text)
}
