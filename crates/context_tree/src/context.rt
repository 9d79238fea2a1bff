//! One value of the four kinds of context.
ghost use Rattle.std.specs.Prelude.{◌≡◌, None, Some, MatchResult};
ghost use Rattle.context_tree.specs.Contexts.{new_context, kind_refusal, IsCounted, IsGrownByRule};

use crate::kind::Kind;
use chunk_contexts::{AllocSet, Bump, ChunkContext, ChunkName, ContextError, Generation, Slab};
use std::alloc::Global;
use std::default::MadeWith;

/// A context of any kind.
#[derive(Drop)]
pub enum Context {
    AllocSet(AllocSet),
    Slab(Slab),
    Generation(Generation),
    Bump(Bump),
}

impl Context {
    /// Makes a context with no block. Refuses a slab of chunks that are too large.
    pub fn new(alloc: Global, kind: Kind) -> Result<Context, ContextError>
        ensures { MatchResult result (λ context. (kind_refusal kind ≡ None) × (context ≡ new_context kind)) (λ e. kind_refusal kind
            ≡ Some e) }
    {
        Ok(match kind {
            Kind::AllocSet => Context::AllocSet(AllocSet::new(alloc)),
            Kind::Slab(size) => Context::Slab(Slab::new(alloc, size)?),
            Kind::Generation => Context::Generation(Generation::new(alloc)),
            Kind::Bump => Context::Bump(Bump::new(alloc)),
        })
    }

    /// A law: a block of a slab has a free chunk just where there are fewer chunks than all its blocks have room for.
    pub(crate) fn spare_by_count(&self)
        ensures { IsCounted self.now }
    {
        match self {
            Context::AllocSet(_) | Context::Generation(_) | Context::Bump(_) => {}
            Context::Slab(slab) => slab.spare_by_count(),
        }
    }

    /// A law: a set takes a block of the next size, doubled until it holds the chunk, and cuts up what was left of the one
    /// before: while 16 bytes are left, a free chunk of the largest class that fits.
    pub(crate) fn grows_by_rule(&self)
        ensures { IsGrownByRule self.now }
    {
        match self {
            Context::AllocSet(set) => set.grows_by_rule(),
            Context::Slab(_) | Context::Generation(_) | Context::Bump(_) => {}
        }
    }
}

/// An empty `AllocSet`, which also stands for none.
impl MadeWith<Global> for Context {
    ghost use Rattle.context_tree.specs.Contexts.{no_context};

    ghost is_made_with = { λ context. context ≡ no_context };

    fn made_with(alloc: Global) -> Context {
        Context::AllocSet(AllocSet::new(alloc))
    }
}

impl ChunkContext for Context {
    ghost use Rattle.context_tree.specs.Contexts.{chunks_of, blocks_of, room_in, refusal_of, growth_of, can_free, may_lie_in, with_chunk};
    ghost use Rattle.context_tree.specs.Contexts.{with_bytes, with_resized, without_chunk, reset_context};

    ghost chunks = { chunks_of };

    ghost blocks = { blocks_of };

    ghost room = { room_in };

    ghost refusal = { refusal_of };

    ghost growth = { growth_of };

    ghost frees = { can_free };

    ghost may_lie = { may_lie_in };

    ghost taken = { with_chunk };

    ghost wrote = { with_bytes };

    ghost put = { with_resized };

    ghost freed = { without_chunk };

    ghost emptied = { reset_context };

    fn alloc(&mut self, bytes: &[u8]) -> Result<ChunkName, ContextError> {
        match self {
            Context::AllocSet(it) => it.alloc(bytes),
            Context::Slab(it) => it.alloc(bytes),
            Context::Generation(it) => it.alloc(bytes),
            Context::Bump(it) => it.alloc(bytes),
        }
    }

    fn alloc_zeroed(&mut self, n: u32) -> Result<ChunkName, ContextError> {
        match self {
            Context::AllocSet(it) => it.alloc_zeroed(n),
            Context::Slab(it) => it.alloc_zeroed(n),
            Context::Generation(it) => it.alloc_zeroed(n),
            Context::Bump(it) => it.alloc_zeroed(n),
        }
    }

    fn get(&self, name: ChunkName) -> &[u8] {
        match self {
            Context::AllocSet(it) => it.get(name),
            Context::Slab(it) => it.get(name),
            Context::Generation(it) => it.get(name),
            Context::Bump(it) => it.get(name),
        }
    }

    fn get_mut(&mut self, name: ChunkName) -> &mut [u8] {
        match self {
            Context::AllocSet(it) => it.get_mut(name),
            Context::Slab(it) => it.get_mut(name),
            Context::Generation(it) => it.get_mut(name),
            Context::Bump(it) => it.get_mut(name),
        }
    }

    fn free(&mut self, name: ChunkName) -> Result<(), ContextError> {
        match self {
            Context::AllocSet(it) => it.free(name),
            Context::Slab(it) => it.free(name),
            Context::Generation(it) => it.free(name),
            Context::Bump(it) => it.free(name),
        }
    }

    fn resize(&mut self, name: ChunkName, n: u32) -> Result<ChunkName, ContextError> {
        match self {
            Context::AllocSet(it) => it.resize(name, n),
            Context::Slab(it) => it.resize(name, n),
            Context::Generation(it) => it.resize(name, n),
            Context::Bump(it) => it.resize(name, n),
        }
    }

    fn reset(&mut self) {
        match self {
            Context::AllocSet(it) => it.reset(),
            Context::Slab(it) => it.reset(),
            Context::Generation(it) => it.reset(),
            Context::Bump(it) => it.reset(),
        }
    }

    fn held(&self) -> u64 {
        match self {
            Context::AllocSet(it) => it.held(),
            Context::Slab(it) => it.held(),
            Context::Generation(it) => it.held(),
            Context::Bump(it) => it.held(),
        }
    }

    fn growth_for(&self, n: u32) -> u64 {
        match self {
            Context::AllocSet(it) => it.growth_for(n),
            Context::Slab(it) => it.growth_for(n),
            Context::Generation(it) => it.growth_for(n),
            Context::Bump(it) => it.growth_for(n),
        }
    }

    fn growth_to(&self, name: ChunkName, n: u32) -> u64 {
        match self {
            Context::AllocSet(it) => it.growth_to(name, n),
            Context::Slab(it) => it.growth_to(name, n),
            Context::Generation(it) => it.growth_to(name, n),
            Context::Bump(it) => it.growth_to(name, n),
        }
    }

    fn are_laid(&self) {
        match self {
            Context::AllocSet(it) => it.are_laid(),
            Context::Slab(it) => it.are_laid(),
            Context::Generation(it) => it.are_laid(),
            Context::Bump(it) => it.are_laid(),
        }
    }
}
