//! `Slab`: chunks of one size, in blocks that are freed as soon as all their chunks are free.
ghost use Rattle.std.specs.Prelude.{◌≡◌, ◌≤◌, ◌==◌, Some, None, MatchResult};
ghost use Rattle.chunk_contexts.specs.Rooms.{over_most};
ghost use Rattle.chunk_contexts.specs.Slab.{new_slab, slab_refusal_by, SlabState};
ghost use Rattle.chunk_contexts.specs.SlabFields.{slab_state, AreFields};

use crate::context::ChunkContext;
use crate::error::ContextError;
use crate::rooms::{check_len, rounded};
use crate::slab_chunks::SlabChunks;
use chunk_layout::ChunkName;
use std::alloc::Global;
use std::marker::Model;

/// A context for chunks of one size. A block is taken only if none has a free chunk, and is freed as soon as all its
/// chunks are free.
#[derive(Drop)]
pub struct Slab {
    inner: SlabChunks,
}

impl Model for Slab {
    ghost Value = { SlabState };

    ghost view = { slab_state };

    ghost invariant = { AreFields };
}

/// Refuses a request that is too long for any kind, and then one of another size than the chunks have.
fn check_size(size: usize, n: usize) -> Result<(), ContextError>
    ensures { MatchResult result (λ _. slab_refusal_by (over_most n) (n == size) ≡ None) (λ e. slab_refusal_by (over_most n) (n == size)
        ≡ Some e) }
{
    check_len(n)?;
    if n != size {
        return Err(ContextError::WrongSize);
    }
    Ok(())
}

impl Slab {
    /// Makes a context with no block, for chunks of `size` bytes. Refuses `TooLarge`.
    pub fn new(alloc: Global, size: u32) -> Result<Slab, ContextError>
        ensures { MatchResult result (λ slab. (over_most size ≡ None) × (slab ≡ new_slab size)) (λ e. over_most size ≡ Some e) }
    {
        let size = size as usize;
        check_len(size)?;
        Ok(Slab {
            inner: SlabChunks::new(alloc, size),
        })
    }
}

impl Slab {
    ghost use Rattle.std.specs.Prelude.{◌*◌, nat_lt, length};
    ghost use Rattle.chunk_contexts.specs.Rooms.{rounded};
    ghost use Rattle.chunk_contexts.specs.Slab.{has_spare, per_block, block_count};

    /// A law: a block has a free chunk exactly if there are fewer chunks than all blocks have room for.
    pub fn spare_by_count(&self)
        ensures { has_spare self.now ≡ nat_lt (length self.now.chunks) (per_block (rounded self.now.size) * block_count self.now.blocks) }
    {
        let _counted = &self.inner;
    }
}

impl ChunkContext for Slab {
    ghost use Rattle.std.specs.Prelude.{true};
    ghost use Rattle.chunk_contexts.specs.Rooms.{rounded};
    ghost use Rattle.chunk_contexts.specs.Chunks.{IsNewBlock};
    ghost use Rattle.chunk_contexts.specs.Slab.{slab_refusal, slab_growth, slab_grows, slab_taken, slab_wrote, slab_freed, slab_reset};

    ghost chunks = { λ s. s.chunks };

    ghost blocks = { λ s. s.blocks };

    ghost room = { λ s n. rounded n };

    ghost refusal = { slab_refusal };

    ghost growth = { slab_growth };

    ghost frees = { λ s. true };

    ghost may_lie = { λ s n block. IsNewBlock (slab_grows s) s.blocks block };

    ghost taken = { λ s n p. slab_taken s p };

    ghost wrote = { slab_wrote };

    ghost put = { λ s place bytes. s };

    ghost freed = { slab_freed };

    ghost emptied = { slab_reset };

    fn alloc(&mut self, bytes: &[u8]) -> Result<ChunkName, ContextError> {
        check_size(self.inner.size, bytes.len())?;
        let name = self.inner.alloc(bytes)?;
        Ok(name)
    }

    fn alloc_zeroed(&mut self, n: u32) -> Result<ChunkName, ContextError> {
        check_size(self.inner.size, n as usize)?;
        let name = self.inner.alloc_zeroed()?;
        Ok(name)
    }

    fn get(&self, name: ChunkName) -> &[u8] {
        self.inner.layout.get(name.place(), name.len as usize)
    }

    fn get_mut(&mut self, name: ChunkName) -> &mut [u8] {
        self.inner.layout.get_mut(name.place(), name.len as usize)
    }

    fn free(&mut self, name: ChunkName) -> Result<(), ContextError> {
        self.inner.release(name.place());
        Ok(())
    }

    /// Changes nothing: it refuses every size but that of the chunk.
    fn resize(&mut self, name: ChunkName, n: u32) -> Result<ChunkName, ContextError> {
        check_size(self.inner.size, n as usize)?;
        Ok(name)
    }

    fn reset(&mut self) {
        self.inner.clear();
    }

    fn held(&self) -> u64 {
        self.inner.layout.held()
    }

    fn growth_for(&self, n: u32) -> u64 {
        if n as usize != self.inner.size {
            return 0;
        }
        self.inner.growth()
    }

    fn growth_to(&self, _name: ChunkName, n: u32) -> u64 {
        if n as usize <= rounded(self.inner.size) {
            return 0;
        }
        self.growth_for(n)
    }

    fn are_laid(&self) {
        self.inner.layout.are_laid();
    }
}
