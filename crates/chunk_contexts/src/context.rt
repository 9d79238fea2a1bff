//! The calls of all kinds of context.
ghost use Rattle.std.specs.Prelude.{◌≡◌, ◌+◌, ◌<◌, ◌≤◌, ℕ, Bool, not, true, false, List, [], Option, None, IsTrue, IfOk, OnOk, IfErr};
ghost use Rattle.std.specs.Prelude.{OnErr, length, get_or, is_some};
ghost use Rattle.std.specs.Borrow.{sem};
ghost use Rattle.block_memory.specs.Cells.{zeros};
ghost use Rattle.chunk_layout.specs.Contents.{ChunkContents, place_of, contents_at, without, rewritten, resized, total, AreLaid};
ghost use Rattle.chunk_layout.specs.declared.place.Place.{Place};
ghost use Rattle.chunk_contexts.specs.Chunks.{is_live, bytes_of, lengths, chunk_of, TakesChunk, KeepsOthers, IsRefused, IsResizeRefused};
ghost use Rattle.chunk_contexts.specs.Chunks.{IsResized};
ghost use Rattle.chunk_contexts.specs.ContextLends.{lends_chunk};
ghost use Rattle.chunk_contexts.specs.declared.error.ContextError.{ContextError};
ghost use Rattle.chunk_contexts.specs.declared.error.ContextError.TheVariants.{NotSupported};

use crate::error::ContextError;
use chunk_layout::ChunkName;

/// A memory context: a finite map from the names of its live chunks to their bytes, each as long as its name says.
///
/// A chunk lies in a block, and no two share a byte. Each kind has its own rule for when blocks are taken and freed, how much room a
/// chunk has, and which requests are refused. The ghost members state it for any state of the context. Calls that return no `Result` take
/// no memory, nor does `free`, nor `alloc` where `growth_for` is 0.
///
/// `held` counts the bytes of the blocks alone, and not the list in which they are kept.
pub trait ChunkContext {
    /// The live chunks, and the size of each block by its number.
    ghost chunks: { Self → List ChunkContents };

    ghost blocks: { Self → List (Option ℕ) };

    /// The room of a chunk of n bytes; why a request of n bytes is refused, however much memory there is; how many bytes of blocks it
    /// takes, 0 where it is refused; and whether chunks can be freed one by one.
    ghost room: { Self → ℕ → ℕ };

    ghost refusal: { Self → ℕ → Option ContextError };

    ghost growth: { Self → ℕ → ℕ };

    ghost frees: { Self → Bool };

    /// Whether the chunk of a request of n bytes may lie in a block. Where a block is taken, it is that one, of a number that none had.
    /// Else a kind that cuts chunks from one block at a time, and uses none again, takes the block in use.
    ghost may_lie: { Self → ℕ → ℕ → Type 0 };

    /// The context with a chunk more for a request of n bytes; with other bytes in a chunk that stays where it is, as many
    /// or not; without a chunk; and without any.
    ghost taken: { Self → ℕ → ChunkContents → Self };

    ghost wrote: { Self → Place → List ℕ → Self };

    ghost put: { Self → Place → List ℕ → Self };

    ghost freed: { Self → Place → Self };

    ghost emptied: { Self → Self };

    /// Takes a chunk that holds `bytes`.
    ///
    /// Refuses what the kind refuses, and gives `NoMemory` where `growth_for` is above 0 and there is no memory. Nothing is
    /// changed then.
    fn alloc(&mut self, bytes: &[u8]) -> Result<ChunkName, ContextError>
        ensures admitted { OnOk result (refusal self.old (length bytes.now) ≡ None) }
        ensures taken { IfOk result (λ name. TakesChunk (chunks self.old) (chunks self.new) name (room self.old (length bytes.now))
            (length bytes.now) bytes.now) }
        ensures block { IfOk result (λ name. IsTrue (is_some (get_or (blocks self.new) name.block None))) }
        ensures lies { IfOk result (λ name. may_lie self.old (length bytes.now) name.block) }
        ensures space { IfOk result (λ name. self.new
            ≡ taken self.old (length bytes.now) (chunk_of name (room self.old (length bytes.now)) bytes.now)) }
        ensures grown { OnOk result (total (blocks self.new) ≡ total (blocks self.old) + growth self.old (length bytes.now)) }
        ensures refused { IfErr result (IsRefused (refusal self.old (length bytes.now)) (growth self.old (length bytes.now))) }
        ensures unchanged { OnErr result (self.new ≡ self.old) };

    /// Takes a chunk of `n` zeros, as `alloc` of these.
    fn alloc_zeroed(&mut self, n: u32) -> Result<ChunkName, ContextError>
        ensures admitted { OnOk result (refusal self.old n ≡ None) }
        ensures taken { IfOk result (λ name. TakesChunk (chunks self.old) (chunks self.new) name (room self.old n) n (zeros n)) }
        ensures block { IfOk result (λ name. IsTrue (is_some (get_or (blocks self.new) name.block None))) }
        ensures lies { IfOk result (λ name. may_lie self.old n name.block) }
        ensures space { IfOk result (λ name. self.new ≡ taken self.old n (chunk_of name (room self.old n) (zeros n))) }
        ensures grown { OnOk result (total (blocks self.new) ≡ total (blocks self.old) + growth self.old n) }
        ensures refused { IfErr result (IsRefused (refusal self.old n) (growth self.old n)) }
        ensures unchanged { OnErr result (self.new ≡ self.old) };

    /// The bytes of a live chunk.
    fn get(&self, name: ChunkName) -> &[u8]
        requires { IsTrue (is_live (chunks self.now) name) }
        ensures bytes { result.now ≡ bytes_of (chunks self.now) name }
        ensures len { length result.now ≡ name.len };

    /// Lends the bytes of a live chunk, to be changed. All other chunks keep theirs.
    fn get_mut(&mut self, name: ChunkName) -> &mut [u8]
        requires { IsTrue (is_live (chunks self.old) name) }
        ensures* writes_back { sem 𝓛 (lends_chunk Self.row self.entry (wrote self.old (place_of name)) result) }
        ensures bytes { result.now ≡ bytes_of (chunks self.old) name }
        ensures len { length result.now ≡ name.len }
        ensures chunks { (ws : List ℕ) → chunks (wrote self.old (place_of name) ws) ≡ rewritten (chunks self.old) (place_of name) ws }
        ensures lives { (ws : List ℕ) → IsTrue (is_live (chunks (wrote self.old (place_of name) ws)) name) }
        ensures holds { (ws : List ℕ) → length ws ≡ name.len → bytes_of (chunks (wrote self.old (place_of name) ws)) name ≡ ws }
        ensures keeps { (ws : List ℕ) → KeepsOthers (chunks self.old) (chunks (wrote self.old (place_of name) ws)) name name }
        ensures blocks { (ws : List ℕ) → blocks (wrote self.old (place_of name) ws) ≡ blocks self.old };

    /// Gives up a live chunk. Refuses `NotSupported` where the kind has no such call, and nothing else.
    fn free(&mut self, name: ChunkName) -> Result<(), ContextError>
        requires { IsTrue (is_live (chunks self.old) name) }
        ensures supported { OnOk result (frees self.old ≡ true) }
        ensures gone { OnOk result (chunks self.new ≡ without (chunks self.old) (place_of name)) }
        ensures keeps { OnOk result (KeepsOthers (chunks self.old) (chunks self.new) name name) }
        ensures space { OnOk result (self.new ≡ freed self.old (place_of name)) }
        ensures most { OnOk result (total (blocks self.new) ≤ total (blocks self.old)) }
        ensures refused { IfErr result (λ error. (error ≡ NotSupported) × (IsTrue (not (frees self.old)))) }
        ensures unchanged { OnErr result (self.new ≡ self.old) };

    /// Makes a live chunk `n` bytes long: the front that both lengths have is kept, and what is new is zero. The chunk stays
    /// where it is if it has the room. Else a chunk is taken, the bytes are copied, and the old chunk is freed.
    ///
    /// Refuses `NotSupported` where the kind has no such call, then what the kind refuses for `n` bytes, and gives
    /// `NoMemory` as `alloc` does. Nothing is changed then.
    fn resize(&mut self, name: ChunkName, n: u32) -> Result<ChunkName, ContextError>
        requires { IsTrue (is_live (chunks self.old) name) }
        ensures admitted { OnOk result ((frees self.old ≡ true) × (refusal self.old n ≡ None)) }
        ensures resized { IfOk result (λ new. IsResized (chunks self.old) (chunks self.new) name new n) }
        ensures keeps { IfOk result (KeepsOthers (chunks self.old) (chunks self.new) name) }
        ensures stays { IfOk result (λ new. n ≤ (contents_at (chunks self.old) (place_of name)).room → self.new
            ≡ put self.old (place_of name) (resized (bytes_of (chunks self.old) name) n)) }
        ensures moved { IfOk result (λ new. (contents_at (chunks self.old) (place_of name)).room < n → self.new
            ≡ freed (taken self.old n (chunk_of new (room self.old n) (resized (bytes_of (chunks self.old) name) n))) (place_of name)) }
        ensures lies { IfOk result (λ new. (contents_at (chunks self.old) (place_of name)).room < n → may_lie self.old n new.block) }
        ensures grown { IfOk result (λ new. (contents_at (chunks self.old) (place_of name)).room < n
            → total (blocks (taken self.old n (chunk_of new (room self.old n) (resized (bytes_of (chunks self.old) name) n))))
            ≡ total (blocks self.old) + growth self.old n) }
        ensures most { OnOk result (total (blocks self.new) ≤ total (blocks self.old) + growth self.old n) }
        ensures refused { IfErr result (IsResizeRefused (frees self.old) (refusal self.old n) (growth self.old n)
            (contents_at (chunks self.old) (place_of name)).room n) }
        ensures unchanged { OnErr result (self.new ≡ self.old) };

    /// Gives up all chunks, and all blocks that the kind does not keep.
    fn reset(&mut self)
        ensures empty { chunks self.new ≡ [] }
        ensures space { self.new ≡ emptied self.old }
        ensures most { total (blocks self.new) ≤ total (blocks self.old) };

    /// The bytes of its blocks.
    fn held(&self) -> u64
        ensures { result ≡ total (blocks self.now) };

    /// How many bytes of blocks `alloc` of `n` bytes would take now: 0 where it would be refused for what it asks.
    fn growth_for(&self, n: u32) -> u64
        ensures { result ≡ growth self.now n };

    /// How many bytes of blocks `resize` of a live chunk would take now: 0 where it would stay where it is, or be refused for
    /// what it asks.
    fn growth_to(&self, name: ChunkName, n: u32) -> u64
        requires { IsTrue (is_live (chunks self.now) name) }
        ensures stays { n ≤ (contents_at (chunks self.now) (place_of name)).room → result ≡ 0 }
        ensures moves { (contents_at (chunks self.now) (place_of name)).room < n → frees self.now ≡ true → result ≡ growth self.now n }
        ensures refused { frees self.now ≡ false → result ≡ 0 };

    /// A law: no two live chunks share a byte, and each lies in a block. So no less is held than they have bytes.
    fn are_laid(&self)
        ensures laid { AreLaid (blocks self.now) (chunks self.now) }
        ensures enough { lengths (chunks self.now) ≤ total (blocks self.now) };
}
