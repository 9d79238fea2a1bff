//! A table by itself.

use crate::groups::{Groups, WIDTH, has_numbers, key, put_numbers, state};
use crate::seeded_hashes::{OF_PYTHON, RISING};
use context_tree::{Kind, Tree, TreeError};
use group_table::{Fnv1a, GroupTable, KeyHash, SipHash};
use std::alloc::{AllocError, Global};
use std::test::*;
use test_cases::{Answered, expect_told_lines};

/// A hash function by which all keys are alike.
#[derive(Drop)]
struct Alike {
    hash: u32,
}

impl KeyHash for Alike {
    ghost hash_of = { λ alike _. alike.hash };

    fn key_hash(&self, _key: &[u8]) -> u32 {
        self.hash
    }
}

/// The hashes of a few keys.
fn hashes(keys: &[&[u8]; 3]) -> [u32; 3] {
    keys.map(|key| Fnv1a.key_hash(key))
}

#[test]
fn hashes_are_those_of_fnv_1a(rt: HostRuntime) {
    assert!(rt; hashes(&[b"a", b"", b"foobar"]) == [3826002220, 2166136261, 3214735720]);
}

/// Tells what is held, and how many groups there are.
fn tell_held(groups: &Groups<Fnv1a>, told: &mut Answered) -> Result<(), AllocError> {
    told.tell(groups.held())?;
    told.tell(groups.len())
}

/// Puts the groups of numbers, and tells whether each is a new one and is found.
fn tell_put<H: KeyHash + Drop>(
    groups: &mut Groups<H>,
    count: u32,
    told: &mut Answered,
) -> Result<(), AllocError> {
    told.tell(put_numbers(groups, count)?)?;
    told.tell(has_numbers(groups, count))
}

/// Tells groups of numbers, again behind a clearing.
fn tell_numbers<H: KeyHash + Drop>(
    groups: &mut Groups<H>,
    count: u32,
    told: &mut Answered,
) -> Result<(), AllocError> {
    tell_put(groups, count, told)?;
    groups.clear();
    told.tell(has_numbers(groups, 0))?;
    told.tell(groups.has(&key(0)))?;
    tell_put(groups, count, told)
}

/// All that was told, without the space behind it.
fn text_of(told: Answered) -> String {
    let mut text = told.into_text();
    text.pop();
    text
}

/// What is told of groups of numbers in a table by a hash function.
fn told_of_numbers<H: KeyHash + Drop>(
    alloc: Global,
    hash: H,
    count: u32,
) -> Result<String, TreeError> {
    let mut groups = Groups::new(alloc, hash)?;
    let mut told = Answered::new(alloc);
    let outcome = tell_numbers(&mut groups, count, &mut told);
    drop(groups);
    outcome?;
    Ok(text_of(told))
}

/// The least limit within which one more group with a key keeps.
fn least_limit(groups: &Groups<Fnv1a>, key: &[u8; 4]) -> u128 {
    let mut refused = 0;
    for bit in 0..HIGHEST_BIT {
        let limit = refused | 1u64 << (HIGHEST_BIT - 1 - bit);
        if !groups.room_for(key, limit) {
            refused = limit;
        }
    }
    u128::from(refused).saturating_add(1)
}

/// No table of these tests holds as many bytes as this power of two.
const HIGHEST_BIT: u32 = 40;

/// The bytes of the block that is freed when there are so many groups and one more is put: that of an array of more than
/// 8,192 bytes which is three quarters full, and of the eight bytes in front of it.
fn given_back(number: u32) -> u128 {
    match number {
        384 => 16392,
        768 => 32776,
        1536 => 65544,
        _ => 0,
    }
}

/// Whether room was told for what was held on the way, of the group of a number that is put.
fn is_told(groups: &mut Groups<Fnv1a>, number: u32) -> Result<bool, AllocError> {
    let least = least_limit(groups, &key(number));
    let put = groups.put(&key(number), &state(number))?;
    let Some(held) = groups.held() else {
        return Ok(false);
    };
    Ok(put && held.saturating_add(given_back(number)) == least)
}

/// The first of the numbers at which room was told for more or for less than was held on the way.
fn first_untold(groups: &mut Groups<Fnv1a>, count: u32) -> Result<Option<u32>, AllocError> {
    for number in 0..count {
        if !is_told(groups, number)? {
            return Ok(Some(number));
        }
    }
    Ok(None)
}

/// Tells what room is told for, of each of the groups of numbers.
fn tell_rooms(groups: &mut Groups<Fnv1a>, told: &mut Answered) -> Result<(), AllocError> {
    told.tell(first_untold(groups, 2000)?)?;
    groups.clear();
    told.tell(first_untold(groups, 200)?)
}

/// Tells what one more group needs where there are those of so many numbers, and what is held then.
fn tell_need(
    groups: &mut Groups<Fnv1a>,
    count: u32,
    told: &mut Answered,
) -> Result<(), AllocError> {
    groups.clear();
    told.tell(put_numbers(groups, count)?)?;
    told.tell(groups.need_for(&key(count)))?;
    told.tell(groups.held())
}

/// A block of 8,192 bytes has room for 1,024 of these keys and for 512 states, each in a chunk of 16 bytes. The array that is held
/// from the first group on has 256 buckets. It is doubled by the 193rd group, to 16,392 bytes, and by the 385th, to 32,776.
fn tell_needs(groups: &mut Groups<Fnv1a>, told: &mut Answered) -> Result<(), AllocError> {
    tell_need(groups, 0, told)?;
    tell_need(groups, 191, told)?;
    tell_need(groups, 192, told)?;
    tell_need(groups, 384, told)?;
    tell_need(groups, 512, told)
}

/// Why no table is made below the root of a tree, if none is.
fn refusal(alloc: Global, tree: &mut Tree) -> Option<TreeError> {
    let root = tree.root();
    GroupTable::new(alloc, tree, root, WIDTH, Fnv1a).err()
}

/// The stamp of the context that is made next behind a table.
fn told_of_next_stamp(alloc: Global) -> Result<String, TreeError> {
    let mut tree = Tree::new(alloc);
    let refused = refusal(alloc, &mut tree);
    let next = tree.create(tree.root(), Kind::Bump);
    drop(tree);
    Ok(format!(in alloc; "{refused:?} {}", next?.stamp)?)
}

/// Tells what is held with the groups of 2,000 numbers.
fn tell_held_by_many(groups: &mut Groups<Fnv1a>, told: &mut Answered) -> Result<(), AllocError> {
    told.tell(put_numbers(groups, 2000)?)?;
    tell_held(groups, told)
}

/// Tells what a case names of a table.
fn tell_case(
    groups: &mut Groups<Fnv1a>,
    case: &str,
    told: &mut Answered,
) -> Result<(), AllocError> {
    match case {
        "rooms" => tell_rooms(groups, told),
        "needs" => tell_needs(groups, told),
        "what is held" => tell_held_by_many(groups, told),
        _ => tell_numbers(groups, 2000, told),
    }
}

/// What is told of a new table by the usual hash function.
fn told_of_table(
    alloc: Global,
    made: Result<Groups<Fnv1a>, TreeError>,
    case: &str,
) -> Result<String, TreeError> {
    let mut groups = made?;
    let mut told = Answered::new(alloc);
    let outcome = tell_case(&mut groups, case, &mut told);
    drop(groups);
    outcome?;
    Ok(text_of(told))
}

/// What is told of a case: of groups of one hash, the least or the greatest; by a hash function with a seed; or by the usual one. And what
/// is told of stamps.
fn told(alloc: Global, case: &str) -> Result<String, TreeError> {
    match case {
        "least hash" => told_of_numbers(alloc, Alike { hash: 0 }, 300),
        "greatest hash" => told_of_numbers(alloc, Alike { hash: u32::MAX }, 300),
        "rising seed" => told_of_numbers(alloc, SipHash::new(RISING), 2000),
        "seed of Python" => told_of_numbers(alloc, SipHash::new(OF_PYTHON), 2000),
        "no fourth stamp" => told_of_next_stamp(alloc),
        "what is held beside a chunk" => {
            told_of_table(alloc, Groups::beside_a_chunk(alloc, Fnv1a), "what is held")
        }
        _ => told_of_table(alloc, Groups::new(alloc, Fnv1a), case),
    }
}

/// Groups are found, and found again behind a clearing, also those of one hash and by any seed. Room is what is held on the way, and a
/// group needs what is counted. No array that was doubled stays held, whatever else is held below the parent: here a block of 8,192 bytes. A table takes three stamps, and no fourth.
const TOLD: &str = "\
many groups => true true true false true true
least hash => true true true false true true
greatest hash => true true true false true true
rising seed => true true true false true true
seed of Python => true true true false true true
rooms => None None
needs => true Some(32768) Some(0) true Some(32768) Some(32768) true Some(49160) Some(32768) true Some(81936) Some(49160) \
    true Some(73736) Some(65544)
what is held => true Some(196616) 2000
what is held beside a chunk => true Some(204808) 2000
no fourth stamp => None 4
";

#[test]
fn groups_are_put_and_found(rt: HostRuntime) -> Result<(), Fail> {
    expect_told_lines(rt, TOLD, told)
}
