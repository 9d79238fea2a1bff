//! Callers that know a context by its trait alone: what they promise of it is proved by the trait's clauses.
ghost use Rattle.std.specs.Prelude.{◌≡◌, true, IfOk, length, ◌≤◌, slice_index};

use chunk_contexts::{ChunkContext, ContextError};
use std::alloc::AllocError;
use test_cases::Answered;

/// Takes two chunks and gives them up, the newer one first. The older one keeps its bytes.
fn take_and_free<C: ChunkContext>(context: &mut C, bytes: &[u8]) -> Result<bool, ContextError>
    ensures kept { IfOk result (λ same. same ≡ true) }
{
    let first = context.alloc(bytes)?;
    let second = context.alloc_zeroed(bytes.len() as u32)?;
    let before = context.get(first) == bytes;
    context.free(second)?;
    let after = context.get(first) == bytes;
    context.free(first)?;
    Ok(before & after)
}

/// Takes two chunks, and writes over the first. The other one keeps its bytes.
fn write_over<C: ChunkContext>(
    context: &mut C,
    bytes: &[u8],
    other: &[u8],
) -> Result<(bool, bool), ContextError>
    requires { length bytes.now ≡ length other.now }
    ensures written { IfOk result (λ same. same.0 ≡ true) }
    ensures kept { IfOk result (λ same. same.1 ≡ true) }
{
    let first = context.alloc(bytes)?;
    let second = context.alloc(bytes)?;
    context.get_mut(first).copy_from_slice(other);
    let written = context.get(first) == other;
    let kept = context.get(second) == bytes;
    Ok((written, kept))
}

/// Writes one byte of a chunk and reads it.
fn write_byte<C: ChunkContext>(context: &mut C, byte: u8) -> Result<u8, ContextError>
    ensures { IfOk result (λ read. read ≡ byte) }
{
    let name = context.alloc_zeroed(3)?;
    let bytes = context.get_mut(name);
    bytes[1] = byte;
    Ok(context.get(name)[1])
}

/// Makes one of two chunks longer. It keeps its bytes, and so does the other one.
fn lengthen<C: ChunkContext>(
    context: &mut C,
    bytes: &[u8],
    n: u32,
) -> Result<(u8, bool), ContextError>
    requires some { 1 ≤ length bytes.now }
    requires longer { length bytes.now ≤ n }
    ensures long { IfOk result (λ read. read.0 ≡ slice_index bytes.now 0) }
    ensures kept { IfOk result (λ read. read.1 ≡ true) }
{
    let first = context.alloc(bytes)?;
    let second = context.alloc(bytes)?;
    let longer = context.resize(first, n)?;
    let byte = context.get(longer)[0];
    Ok((byte, context.get(second) == bytes))
}

/// Makes one of two chunks longer, and gives both up. The other one keeps its bytes as long as it is there.
fn lengthen_and_free<C: ChunkContext>(
    context: &mut C,
    bytes: &[u8],
    n: u32,
) -> Result<bool, ContextError>
    requires longer { length bytes.now ≤ n }
    ensures kept { IfOk result (λ same. same ≡ true) }
{
    let first = context.alloc(bytes)?;
    let second = context.alloc(bytes)?;
    let longer = context.resize(first, n)?;
    context.free(longer)?;
    let same = context.get(second) == bytes;
    context.free(second)?;
    Ok(same)
}

/// Tells what a caller answers. The chunk that it makes longer gets `n` bytes, three at least.
pub(crate) fn tell_caller<C: ChunkContext>(
    context: &mut C,
    caller: &str,
    n: u32,
    told: &mut Answered,
) -> Result<(), AllocError> {
    let n = n.max(3);
    match caller {
        "newer_first" => told.tell(take_and_free(context, b"abc")),
        "write_over" => told.tell(write_over(context, b"abc", b"xyz")),
        "write_byte" => told.tell(write_byte(context, 7)),
        "longer" => told.tell(lengthen(context, b"abc", n)),
        _ => told.tell(lengthen_and_free(context, b"abc", n)),
    }
}
