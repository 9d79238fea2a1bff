//! How many bytes a chunk has room for.
ghost use Rattle.std.specs.Prelude.{◌≡◌, ◌+◌, ◌≤◌, ◌<◌, IsTrue, IsSome, Some, IsOk, MatchResult, is_some};
ghost use Rattle.chunk_contexts.specs.Rooms.{rounded, room_of, class_of, over_most, rooms};
ghost use Rattle.chunk_contexts.specs.Free.{is_in};
ghost use Rattle.std.specs.Prelude.{None};

use crate::error::ContextError;
use chunk_layout::HEADER;

/// The longest chunk, in bytes.
pub const MOST: usize = 1_073_741_823;

/// How many classes there are.
pub const CLASSES: usize = 11;

/// The rooms of the classes.
const ROOMS: [usize; CLASSES] = [8, 16, 32, 64, 128, 256, 512, 1024, 2048, 4096, 8192];

/// The room of the smallest class.
pub const SMALLEST: usize = 8;

/// The room of the largest class.
pub const LARGEST: usize = 8192;

/// The size of a block, in bytes: what an `AllocSet` begins with, and in the other kinds that of each block that is not larger
/// for the sake of one chunk.
pub const BLOCK: usize = 8192;

/// The largest size of a block of an `AllocSet` that has chunks of the classes, in bytes.
pub const LARGEST_BLOCK: usize = 1_048_576;

/// A law: these are the sizes.
pub fn sizes()
    ensures header { HEADER ≡ 8 }
    ensures most { MOST ≡ 1073741823 }
    ensures classes { (CLASSES ≡ 11) × ((SMALLEST ≡ 8) × (LARGEST ≡ 8192)) }
    ensures blocks { (BLOCK ≡ 8192) × (LARGEST_BLOCK ≡ 1048576) }
{}

/// Refuses a request that is too long for any kind.
pub(crate) fn check_len(n: usize) -> Result<(), ContextError>
    ensures { MatchResult result (λ _. over_most n ≡ None) (λ e. over_most n ≡ Some e) }
{
    if n > MOST {
        return Err(ContextError::TooLarge);
    }
    Ok(())
}

/// `n` raised to a multiple of 8, at least 8.
pub(crate) fn rounded(n: usize) -> usize
    requires { n ≤ MOST }
    ensures value { result ≡ rounded n }
    ensures room { n ≤ result }
    ensures some { 8 ≤ result }
    ensures small { result ≤ n + 8 }
{
    (n.max(1) + 7) / 8 * 8
}

/// The room of a class.
#[tactic(auto, unfolding(crate::specs::Rooms::room_of, crate::specs::Rooms::rooms))]
pub(crate) fn room_of(class: usize) -> usize
    requires { class < CLASSES }
    ensures value { result ≡ room_of class }
    ensures known { IsTrue (is_in result rooms) }
    ensures some { SMALLEST ≤ result }
    ensures small { result ≤ LARGEST }
{
    ROOMS[class]
}

/// The first class with room for `n` bytes.
pub(crate) fn class_of(n: usize) -> usize
    requires { n ≤ LARGEST }
    ensures value { result ≡ class_of n }
    ensures class { result < CLASSES }
    ensures room { n ≤ room_of result }
{
    for class in 0..CLASSES {
        if n <= room_of(class) {
            return class;
        }
    }
    CLASSES - 1
}
