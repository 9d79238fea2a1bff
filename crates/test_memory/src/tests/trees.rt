//! Trees of contexts.
ghost use Rattle.std.specs.Prelude.{◌≡◌, true, IsTrue};
ghost use Rattle.context_tree.specs.Contexts.{has_chunk};
ghost use Rattle.context_tree.specs.Tree.{is_there, context_at};

use context_tree::{ChunkName, ContextId, Kind, Tree, TreeError};
use std::alloc::Global;
use std::test::*;
use test_cases::{Answered, expect_told_lines};

/// Whether a chunk has these bytes.
fn has(tree: &Tree, id: ContextId, name: ChunkName, bytes: &[u8]) -> Result<bool, TreeError>
    requires { is_there tree.now id ≡ true → IsTrue (has_chunk (context_at tree.now id) name) }
{
    Ok(tree.get(id, name)? == bytes)
}

/// Makes a chunk of the root longer, and tells whether it has its bytes then.
fn lengthen(tree: &mut Tree) -> Result<bool, TreeError> {
    let root = tree.root();
    let name = tree.alloc(root, b"ab")?;
    let name = tree.resize(root, name, 3)?;
    has(tree, root, name, b"ab\0")
}

/// Takes a chunk of zeros and writes over it, and tells whether it had its zeros.
fn write_over(tree: &mut Tree) -> Result<bool, TreeError> {
    let root = tree.root();
    let zero = tree.alloc_zeroed(root, 1)?;
    let zeroed = has(tree, root, zero, b"\0")?;
    tree.get_mut(root, zero)?.copy_from_slice(b"z");
    Ok(zeroed)
}

/// Writes into a chunk, and tells whether the rest of it and another chunk have their bytes then.
fn write_within(tree: &mut Tree) -> Result<(bool, bool), TreeError> {
    let root = tree.root();
    let name = tree.alloc(root, b"abcde")?;
    let other = tree.alloc(root, b"fg")?;
    tree.write(root, name, 1, b"xy")?;
    let written = has(tree, root, name, b"axyde")?;
    Ok((written, has(tree, root, other, b"fg")?))
}

/// Tells the chunks of a root, one of them made longer, one written over and one written into.
fn tell_chunks(tree: &mut Tree, told: &mut Answered) -> Result<(), TreeError> {
    told.tell(lengthen(tree))?;
    told.tell(write_over(tree))?;
    told.tell(write_within(tree))?;
    told.tell(tree.held(tree.root()))?;
    Ok(told.tell(tree.growth_for(tree.root(), 9000))?)
}

/// Makes a generation below the root, and tells its stamp.
fn next_stamp(tree: &mut Tree) -> Result<u64, TreeError> {
    let root = tree.root();
    Ok(tree.create(root, Kind::Generation)?.stamp)
}

/// Makes a context below one that is in a high slot, and another below the root, and deletes both. Answers the higher slot.
fn make_in_turn(tree: &mut Tree, high: ContextId) -> Result<u32, TreeError> {
    let root = tree.root();
    let below = tree.create(high, Kind::Bump)?;
    let beside = tree.create(root, Kind::Bump)?;
    tree.delete(below)?;
    tree.delete(beside)?;
    Ok(below.slot.max(beside.slot))
}

/// The highest slot of a million rounds, in each of which contexts are made below a high slot and below the root.
fn highest_in_turn(tree: &mut Tree) -> Result<u32, TreeError> {
    let root = tree.root();
    let first = tree.create(root, Kind::Bump)?;
    let second = tree.create(root, Kind::Bump)?;
    let high = tree.create(root, Kind::Bump)?;
    tree.delete(first)?;
    tree.delete(second)?;
    let mut highest = high.slot;
    for _ in 0..1_000_000 {
        highest = make_in_turn(tree, high)?.max(highest);
    }
    Ok(highest)
}

/// Tells the highest slot of many contexts of which three live at once, and the next stamp.
fn tell_rounds(tree: &mut Tree, told: &mut Answered) -> Result<(), TreeError> {
    told.tell(highest_in_turn(tree))?;
    Ok(told.tell(next_stamp(tree))?)
}

/// How many contexts a large tree has beside its root.
const MANY: u32 = 10_000;

/// Makes the `n`th context of a large tree. Each hundredth takes a chunk, and so holds a block of 8192 bytes.
fn grow(tree: &mut Tree, parent: ContextId, n: u32) -> Result<ContextId, TreeError> {
    let id = tree.create(parent, Kind::Bump)?;
    if n.is_multiple_of(100) {
        tree.alloc_zeroed(id, 1)?;
    }
    Ok(id)
}

/// Makes contexts below the root, each below the one before, and answers the one behind the middle.
fn grow_deep(tree: &mut Tree) -> Result<ContextId, TreeError> {
    let mut last = tree.root();
    let mut middle = last;
    for n in 1..=MANY {
        last = grow(tree, last, n)?;
        if n == MANY / 2 + 1 {
            middle = last;
        }
    }
    Ok(middle)
}

/// Makes contexts below one, and answers the middle one.
fn grow_wide(tree: &mut Tree, parent: ContextId) -> Result<ContextId, TreeError> {
    let mut middle = parent;
    for n in 1..=MANY {
        let last = grow(tree, parent, n)?;
        if n == MANY / 2 {
            middle = last;
        }
    }
    Ok(middle)
}

/// Tells what is held below the root and below another context, if that is there.
fn tell_below(tree: &Tree, id: ContextId, told: &mut Answered) -> Result<(), TreeError> {
    told.tell(tree.held_below(tree.root()))?;
    Ok(told.tell(tree.held_below(id))?)
}

/// Tells what is held below the root, and whether a slot that was free serves the next context.
fn tell_next(tree: &mut Tree, told: &mut Answered) -> Result<(), TreeError> {
    let root = tree.root();
    told.tell(tree.held_below(root))?;
    Ok(told.tell(tree.create(root, Kind::Bump)?.slot <= MANY)?)
}

/// Tells what a deep tree holds, when its lower half is reset, when that is deleted, and when the root is reset.
fn tell_deep(tree: &mut Tree, told: &mut Answered) -> Result<(), TreeError> {
    let middle = grow_deep(tree)?;
    tell_below(tree, middle, told)?;
    tree.reset(middle)?;
    tell_below(tree, middle, told)?;
    tree.delete(middle)?;
    tell_below(tree, middle, told)?;
    let root = tree.root();
    tree.reset(root)?;
    tell_next(tree, told)
}

/// Tells what a wide tree holds, when one context in its middle is deleted, and when that above all of them is reset.
fn tell_wide(tree: &mut Tree, told: &mut Answered) -> Result<(), TreeError> {
    let root = tree.root();
    let pass = tree.create(root, Kind::Bump)?;
    let middle = grow_wide(tree, pass)?;
    tell_below(tree, middle, told)?;
    tree.delete(middle)?;
    tell_below(tree, pass, told)?;
    tree.reset(pass)?;
    tell_next(tree, told)
}

/// Tells what a case names.
fn tell_case(tree: &mut Tree, case: &str, told: &mut Answered) -> Result<(), TreeError> {
    match case {
        "chunks" => tell_chunks(tree, told),
        "rounds" => tell_rounds(tree, told),
        "deep" => tell_deep(tree, told),
        _ => tell_wide(tree, told),
    }
}

/// What is told of a case in a new tree.
fn told(alloc: Global, case: &str) -> Result<String, TreeError> {
    let mut tree = Tree::new(alloc);
    let mut told = Answered::new(alloc);
    let outcome = tell_case(&mut tree, case, &mut told);
    drop(tree);
    outcome?;
    let mut text = told.into_text();
    text.pop();
    Ok(text)
}

/// What trees answer. A context that is gone holds nothing.
const TOLD: &str = "\
chunks => Ok(true) Ok(true) Ok((true, true)) Ok(8192) Ok(9008)
deep => Ok(819200) Ok(409600) Ok(409600) Ok(0) Ok(409600) Err(NoSuchContext) Ok(0) true
wide => Ok(819200) Ok(8192) Ok(811008) Ok(811008) Ok(0) true
";

/// A million rounds.
const ROUNDS: &str = "rounds => Ok(3) Ok(2000004)";

#[test]
fn slots_stay_few_below_any_slot(rt: HostRuntime) -> Result<(), Fail> {
    expect_told_lines(rt, ROUNDS, told)
}

#[test]
fn trees_answer(rt: HostRuntime) -> Result<(), Fail> {
    expect_told_lines(rt, TOLD, told)
}
