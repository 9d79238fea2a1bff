//! What is known as tables for other programs.

ghost use Rattle.std.specs.Prelude.{◌≡◌, ◌++◌, map, flat_map, decimal, IfOk, OnOk};
ghost use Rattle.std.specs.List.{join_by};
ghost use Rattle.replica_merge.specs.Replicas.{known_of};
ghost use Rattle.replies.specs.KnownTables.{known_json, known_tsv, origin_json, origin_tsv};

use crate::texts::push_number;
use replica_merge::KnownOrigin;
use std::alloc::{AllocError, Global};

/// Appends numbers, each behind a separator.
fn push_behind(text: &mut Vec<u8>, separator: &[u8], numbers: &[u32]) -> Result<(), AllocError>
    ensures { OnOk result (text.new.items
        ≡ text.old.items ++ flat_map (λ number. separator.now ++ decimal number) numbers.now) }
{
    for number in numbers {
        text.extend_from_slice(separator)?;
        push_number(text, *number as usize)?;
    }
    Ok(())
}

/// Appends numbers with a separator between them.
fn push_joined(text: &mut Vec<u8>, separator: &[u8], numbers: &[u32]) -> Result<(), AllocError>
    ensures { OnOk result (text.new.items
        ≡ text.old.items ++ join_by decimal separator.now numbers.now) }
{
    let Some((first, rest)) = numbers.split_first() else {
        return Ok(());
    };
    push_number(text, *first as usize)?;
    push_behind(text, separator, rest)
}

/// Appends the line of an origin in TSV.
fn push_tsv(text: &mut Vec<u8>, known: &KnownOrigin) -> Result<(), AllocError>
    ensures { OnOk result (text.new.items ≡ text.old.items ++ origin_tsv (known_of known.now)) }
{
    push_number(text, known.origin as usize)?;
    text.push(b'\t')?;
    push_number(text, known.upto as usize)?;
    text.push(b'\t')?;
    push_joined(text, b" ", &known.early)?;
    text.push(b'\n')?;
    Ok(())
}

/// Appends the object of an origin.
fn push_json(text: &mut Vec<u8>, known: &KnownOrigin) -> Result<(), AllocError>
    ensures { OnOk result (text.new.items ≡ text.old.items ++ origin_json (known_of known.now)) }
{
    text.extend_from_slice(b"{\"origin\":")?;
    push_number(text, known.origin as usize)?;
    text.extend_from_slice(b",\"upto\":")?;
    push_number(text, known.upto as usize)?;
    text.extend_from_slice(b",\"early\":[")?;
    push_joined(text, b",", &known.early)?;
    text.extend_from_slice(b"]}\n")?;
    Ok(())
}

/// A header, and a line for each origin, in TSV.
pub(crate) fn list_tsv(alloc: Global, list: &[KnownOrigin]) -> Result<Vec<u8>, AllocError>
    ensures { IfOk result (λ text. text.items ≡ known_tsv (map known_of list.now)) }
{
    let mut text = Vec::new(alloc);
    text.extend_from_slice(b"origin\tupto\tearly\n")?;
    for known in list {
        push_tsv(&mut text, known)?;
    }
    Ok(text)
}

/// An object for each origin, on a line of its own.
pub(crate) fn list_json(alloc: Global, list: &[KnownOrigin]) -> Result<Vec<u8>, AllocError>
    ensures { IfOk result (λ text. text.items ≡ known_json (map known_of list.now)) }
{
    let mut text = Vec::new(alloc);
    for known in list {
        push_json(&mut text, known)?;
    }
    Ok(text)
}
