//! `Bump`: chunks without headers, which are freed all together.
ghost use Rattle.std.specs.Prelude.{◌≡◌};
ghost use Rattle.chunk_contexts.specs.Run.{RunState};
ghost use Rattle.chunk_contexts.specs.BumpFields.{bump_of, AreFields};

use crate::context::ChunkContext;
use crate::error::ContextError;
use crate::runs::Runs;
use chunk_layout::ChunkName;
use std::alloc::Global;
use std::marker::Model;

/// A context for chunks that are freed all together: they lie one after the other and have no headers.
#[derive(Drop)]
pub struct Bump {
    runs: Runs,
}

impl Model for Bump {
    ghost Value = { RunState };

    ghost view = { bump_of };

    ghost invariant = { AreFields };
}

impl Bump {
    ghost use Rattle.chunk_contexts.specs.Run.{new_run};

    /// Makes a context with no block.
    pub fn new(alloc: Global) -> Bump
        ensures { result ≡ new_run }
    {
        Bump {
            runs: Runs::new(alloc, false),
        }
    }
}

impl ChunkContext for Bump {
    ghost use Rattle.std.specs.Prelude.{false};
    ghost use Rattle.chunk_contexts.specs.Rooms.{rounded, over_most};
    ghost use Rattle.chunk_contexts.specs.Run.{run_growth, run_taken, run_wrote, run_put, run_reset, IsBlockOf};

    ghost chunks = { λ s. s.chunks };

    ghost blocks = { λ s. s.blocks };

    ghost room = { λ s n. rounded n };

    ghost refusal = { λ s n. over_most n };

    ghost growth = { run_growth 0 };

    ghost frees = { λ s. false };

    ghost may_lie = { λ s n block. IsBlockOf s (run_growth 0 s n) block };

    ghost taken = { λ s n p. run_taken 0 s p };

    ghost wrote = { run_wrote };

    ghost put = { run_put };

    ghost freed = { λ s place. s };

    ghost emptied = { run_reset };

    fn alloc(&mut self, bytes: &[u8]) -> Result<ChunkName, ContextError> {
        let name = self.runs.alloc(0, bytes)?;
        Ok(name)
    }

    fn alloc_zeroed(&mut self, n: u32) -> Result<ChunkName, ContextError> {
        let name = self.runs.alloc_zeroed(0, n)?;
        Ok(name)
    }

    fn get(&self, name: ChunkName) -> &[u8] {
        self.runs.layout.get(name.place(), name.len as usize)
    }

    fn get_mut(&mut self, name: ChunkName) -> &mut [u8] {
        self.runs.layout.get_mut(name.place(), name.len as usize)
    }

    /// Refuses: chunks are freed all together.
    fn free(&mut self, _name: ChunkName) -> Result<(), ContextError> {
        Err(ContextError::NotSupported)
    }

    /// Refuses: chunks are freed all together.
    fn resize(&mut self, _name: ChunkName, _n: u32) -> Result<ChunkName, ContextError> {
        Err(ContextError::NotSupported)
    }

    fn reset(&mut self) {
        self.runs.clear();
    }

    fn held(&self) -> u64 {
        self.runs.layout.held()
    }

    fn growth_for(&self, n: u32) -> u64 {
        self.runs.growth(0, n as usize)
    }

    /// Nothing, since `resize` is refused.
    fn growth_to(&self, _name: ChunkName, _n: u32) -> u64 {
        0
    }

    fn are_laid(&self) {
        self.runs.layout.are_laid();
    }
}
