//! A table in a tree of its own, lent to what a test asks of it.
ghost use Rattle.std.specs.Prelude.{◌≤◌, length};

use context_tree::{Kind, Tree, TreeError};
use group_table::{GroupTable, KeyHash};
use std::alloc::{AllocError, Global};
use std::marker::Model;

/// How many bytes a state has, and a state.
pub(crate) const WIDTH: u32 = 8;

pub(crate) type State = [u8; 8];

/// A table whose states have eight bytes, below the root of a tree.
#[derive(Drop)]
pub(crate) struct Groups<H: KeyHash + Drop> {
    tree: Tree,
    table: GroupTable<H>,
}

impl<H: KeyHash + Drop> Model for Groups<H> {
    ghost use Rattle.std.specs.Prelude.{◌≡◌, ℕ, length};
    ghost use Rattle.group_table.specs.Standing.{IsTableIn};

    ghost Value = { ℕ };

    ghost view = { λ g. length g.table.slots };

    ghost invariant = { λ g. IsTableIn H.hash_of g.table g.tree × (g.table.width ≡ 8) };
}

/// Makes a child of the root, and takes a chunk of it.
fn take_beside(tree: &mut Tree) -> Result<(), TreeError> {
    let root = tree.root();
    let other = tree.create(root, Kind::AllocSet)?;
    tree.alloc(other, b"a chunk")?;
    Ok(())
}

impl<H: KeyHash + Drop> Groups<H> {
    /// Makes a table of no group in a tree.
    fn over(alloc: Global, mut tree: Tree, hash: H) -> Result<Groups<H>, TreeError> {
        let root = tree.root();
        match GroupTable::new(alloc, &mut tree, root, WIDTH, hash) {
            Ok(table) => Ok(Groups { tree, table }),
            Err(error) => {
                drop(tree);
                Err(error)
            }
        }
    }

    /// Makes a table of no group.
    pub(crate) fn new(alloc: Global, hash: H) -> Result<Groups<H>, TreeError> {
        Groups::over(alloc, Tree::new(alloc), hash)
    }

    /// The same beside another child of the root, which has a chunk.
    pub(crate) fn beside_a_chunk(alloc: Global, hash: H) -> Result<Groups<H>, TreeError> {
        let mut tree = Tree::new(alloc);
        match take_beside(&mut tree) {
            Ok(()) => Groups::over(alloc, tree, hash),
            Err(error) => {
                drop(tree);
                Err(error)
            }
        }
    }

    pub(crate) fn len(&self) -> usize {
        self.table.len()
    }

    pub(crate) fn clear(&mut self) {
        self.table.clear(&mut self.tree);
    }

    /// The bytes of all blocks.
    pub(crate) fn held(&self) -> Option<u128> {
        self.tree.held_below(self.tree.root()).ok()
    }

    pub(crate) fn room_for(&self, key: &[u8], limit: u64) -> bool
        requires { length key.now ≤ 65535 }
    {
        self.table.room_for(&self.tree, key, limit)
    }

    pub(crate) fn need_for(&self, key: &[u8]) -> Option<u128>
        requires { length key.now ≤ 65535 }
    {
        self.table.need_for(&self.tree, key)
    }

    /// Whether there is a group of a key.
    pub(crate) fn has(&self, key: &[u8]) -> bool {
        self.table.find(&self.tree, key).is_some()
    }

    /// Whether a key is found, and its state is this one.
    pub(crate) fn finds(&self, key: &[u8], state: &State) -> bool {
        match self.table.find(&self.tree, key) {
            Some(slot) => self.table.state(&self.tree, slot) == state.as_slice(),
            None => false,
        }
    }

    /// Whether the group at a place has this key and this state.
    pub(crate) fn is_entry(&self, place: usize, key: &[u8], state: &State) -> bool {
        place < self.table.len() && self.table.entry(&self.tree, place) == (key, state.as_slice())
    }

    /// Puts a group, and tells whether its key is a new one, and its slot the one that is then found.
    pub(crate) fn put(&mut self, key: &[u8], state: &State) -> Result<bool, AllocError>
        requires { length key.now ≤ 65535 }
    {
        if self.table.find(&self.tree, key).is_some()
            || !self.table.room_for(&self.tree, key, u64::MAX)
        {
            return Ok(false);
        }
        let slot = self.table.insert(&mut self.tree, key, state)?;
        Ok(self.table.find(&self.tree, key) == Some(slot))
    }
}

/// The key and the state of a number.
pub(crate) fn key(number: u32) -> [u8; 4] {
    number.to_be_bytes()
}

pub(crate) fn state(number: u32) -> State {
    u64::from(number).to_be_bytes()
}

/// Puts the groups of the first numbers, and tells whether each is a new one.
pub(crate) fn put_numbers<H: KeyHash + Drop>(
    groups: &mut Groups<H>,
    count: u32,
) -> Result<bool, AllocError> {
    for number in 0..count {
        if !groups.put(&key(number), &state(number))? {
            return Ok(false);
        }
    }
    Ok(true)
}

/// Whether there are the groups of the first numbers, in this order, and not those of as many numbers behind them.
pub(crate) fn has_numbers<H: KeyHash + Drop>(groups: &Groups<H>, count: u32) -> bool {
    for number in 0..count {
        let (key, state) = (key(number), state(number));
        if !groups.finds(&key, &state) || !groups.is_entry(number as usize, &key, &state) {
            return false;
        }
    }
    for number in count..count.saturating_mul(2) {
        if groups.has(&key(number)) {
            return false;
        }
    }
    groups.len() == count as usize
}
