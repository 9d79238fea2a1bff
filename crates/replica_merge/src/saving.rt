//! Replicas as summary files.

ghost use Rattle.std.specs.Prelude.{◌≡◌, IfOk};
ghost use Rattle.grouping_model.specs.World.{World};
ghost use Rattle.summary_codec.specs.Lengths.{HasLength};
ghost use Rattle.summary_codec.specs.Reading.{IsSaved};
ghost use Rattle.summary_codec.specs.WorldFile.{world_file};
ghost use Rattle.replica_merge.specs.Replicas.{told, Fits};
ghost use Rattle.replica_merge.specs.Results.{LoadsReplica};

use crate::replica::Replica;
use having_filter::Query;
use std::alloc::{AllocError, Global};
use summary_codec::{SummaryError, decode_sharing, encode, encoded_len};

impl Replica {
    /// The summary file of the query and of what is known: the one spelling of both, in the second version. The only error is a failed
    /// allocation.
    pub fn save(&self) -> Result<Vec<u8>, AllocError>
        ensures summary { IfOk result (λ bytes. IsSaved bytes.items self.now.query self.now.parts) }
        // So replicas that know the same batches of a world save equal bytes.
        ensures world { IfOk result (λ bytes. (world : World) → Fits world self.now →
            bytes.items ≡ world_file self.now.query world (told self.now.parts)) }
    {
        encode(self.alloc, &self.query, &self.parts)
    }

    /// How many bytes the file of [`Replica::save`] has, or the greatest number if they are more. The file is not made for that.
    /// The only error is out of memory.
    pub fn saved_len(&self) -> Result<usize, AllocError>
        ensures { IfOk result (HasLength self.now.query self.now.parts) }
    {
        encoded_len(&self.query, &self.parts)
    }

    /// The replica of a summary file, of either version. Any bytes are read: other bytes are refused by their first fault.
    pub fn load(alloc: Global, bytes: &[u8]) -> Result<Replica, SummaryError>
        ensures { LoadsReplica bytes.now result }
    {
        Replica::load_sharing(alloc, None, bytes)
    }

    /// The replica of [`Replica::load`], with the same errors. If a query is given and the file has the same one, the replica shares it: it
    /// is held once, and its texts are compared instead of parsed.
    pub fn load_sharing(
        alloc: Global,
        known: Option<&Query>,
        bytes: &[u8],
    ) -> Result<Replica, SummaryError>
        ensures { LoadsReplica bytes.now result }
    {
        let (query, parts) = decode_sharing(alloc, known, bytes)?;
        Ok(Replica {
            alloc,
            query,
            parts,
        })
    }
}
