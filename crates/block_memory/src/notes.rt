//! Notes that take no memory.
//!
//! A proof may need facts that no memory holds, such as which parts of a block are in use. They are read off a list of
//! notes, which has no code at all.
ghost use Rattle.std.specs.Prelude.{◌≡◌, List, [], ◌∷◌};
ghost use Rattle.std.specs.Borrow.{ftrue};

use std::marker::{Model, PhantomData};

/// A list of notes that only proofs read, the newest first. It takes no space.
///
/// The notes are what its owner wrote: nothing relates them to memory but what the owner keeps true of both.
#[derive(Drop)]
pub struct GhostNotes<T> {
    mark: PhantomData<T>,
    pub ghost notes: { List T },
}

impl<T> Model for GhostNotes<T> {
    ghost also_owns = { λ _. ftrue };

    ghost also_shares = { λ _ _ _. ftrue };
}

impl<T> GhostNotes<T> {
    /// Makes a list of no notes. It takes no memory.
    pub fn new() -> GhostNotes<T>
        ensures { result.notes ≡ [] }
    {
        GhostNotes { mark: PhantomData }
    }

    /// Puts a note before the others. Nothing is done when it runs, and it takes no memory.
    pub fn add(&mut self, note: &T)
        ensures { self.new.notes ≡ note.now ∷ self.old.notes }
    {
        let _ = note;
    }
}
