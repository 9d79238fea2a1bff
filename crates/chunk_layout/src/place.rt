//! Where a chunk lies, and its name.
ghost use Rattle.std.specs.Prelude.{◌≡◌, ◌<◌, ◌^◌, length};
ghost use Rattle.std.specs.Int.{w32, to_be_bytes};
ghost use Rattle.chunk_layout.specs.Contents.{name_bytes, place_of};

/// Where the bytes of a chunk begin: the number of its block, and an offset in bytes from the block's start.
#[derive(Clone, Copy, Debug, PartialEq, Eq)]
pub struct Place {
    pub block: u32,
    pub offset: u32,
}

impl Place {
    /// The name of the chunk here, if it has this many bytes.
    pub fn named(self, len: usize) -> ChunkName
        requires { len < 2 ^ 32 }
        ensures { result ≡ record { block = self.block; offset = self.offset; len = len } }
    {
        ChunkName {
            block: self.block,
            offset: self.offset,
            len: len as u32,
        }
    }
}

/// The name of a chunk: where its bytes begin, and how many they are.
#[derive(Clone, Copy, Debug, PartialEq, Eq)]
pub struct ChunkName {
    /// The number of its block.
    pub block: u32,
    /// Where its bytes begin, in bytes from the block's start.
    pub offset: u32,
    /// How many bytes it has.
    pub len: u32,
}

/// The number of four bytes, the highest first.
fn number(bytes: &[u8]) -> u32
    requires { length bytes.now ≡ 4 }
    ensures { to_be_bytes w32 result ≡ bytes.now }
{
    u32::from_be_bytes([bytes[0], bytes[1], bytes[2], bytes[3]])
}

impl ChunkName {
    /// The twelve bytes of a name: its block, its offset and its length, each with its highest byte first.
    pub fn to_bytes(self) -> [u8; 12]
        ensures { result ≡ name_bytes self }
    {
        let [a, b, c, d] = self.block.to_be_bytes();
        let [e, f, g, h] = self.offset.to_be_bytes();
        let [i, j, k, l] = self.len.to_be_bytes();
        [a, b, c, d, e, f, g, h, i, j, k, l]
    }

    /// The name that twelve bytes are.
    pub fn from_bytes(bytes: [u8; 12]) -> ChunkName
        ensures { name_bytes result ≡ bytes }
    {
        ChunkName {
            block: number(&bytes[..4]),
            offset: number(&bytes[4..8]),
            len: number(&bytes[8..]),
        }
    }

    /// Where its bytes begin.
    pub fn place(self) -> Place
        ensures { result ≡ place_of self }
    {
        Place {
            block: self.block,
            offset: self.offset,
        }
    }
}

/// The header of a chunk: where it lies, how many bytes it has room for, how many of these were written, and whether
/// somebody has its name.
#[derive(Clone, Copy)]
pub struct ChunkHeader {
    pub place: Place,
    pub room: usize,
    pub len: usize,
    pub is_live: bool,
}

/// What happened to the chunks of a layout.
#[derive(Clone, Copy)]
pub enum ChunkEvent {
    /// There is this chunk, where none was.
    Chunk(ChunkHeader),
    /// So many bytes were written to the chunk at this place, and it is live or not.
    Written {
        place: Place,
        len: usize,
        is_live: bool,
    },
    /// There is no chunk at this place any more.
    Gone(Place),
    /// The block of this number was freed, with its chunks.
    Returned(u32),
    /// All chunks are gone.
    Cleared,
}
