//! Summary files in memory: those of one query share their head.

ghost use Rattle.std.specs.Prelude.{◌≡◌, ◌++◌, IfOk, IfSome};
ghost use Rattle.replica_merge.specs.Results.{IsLoaded};
ghost use Rattle.script_machine.specs.Views.{IsReplicaFile};

use having_filter::Query;
use replica_merge::{Replica, SummaryError};
use std::alloc::{AllocError, Global};
use std::marker::Model;
use std::rc::Rc;

/// The head that files of one query begin with. It decides how much of them is shared, and nothing else.
pub(crate) type Head = Rc<Vec<u8>, Global>;

/// A summary file. If at least half of it is a head, it shares that, and holds only the rest.
#[derive(Drop)]
pub(crate) struct SavedFile {
    head: Option<Head>,
    rest: Vec<u8>,
}

impl Model for SavedFile {
    ghost use Rattle.std.specs.Prelude.{ℕ, List, ◌++◌};
    ghost use Rattle.std.specs.Coded.{coded_list, coded_ℕ};
    ghost use Rattle.script_machine.specs.Heads.{head_bytes};

    ghost Value = { List ℕ };

    ghost coded = { coded_list coded_ℕ };

    ghost view = { λ f. head_bytes f.head ++ f.rest.items };
}

/// How many bytes the number of origins has, with which the file of an empty replica ends.
const COUNT_LENGTH: usize = 2;

/// The head of a query's files: the file of an empty replica without its number of origins.
pub(crate) fn head_of(alloc: Global, query: &Query) -> Result<Head, AllocError> {
    let nothing = Replica::new(alloc, query.try_clone()?);
    let mut head = nothing.save()?;
    head.truncate(head.len().saturating_sub(COUNT_LENGTH));
    Ok(Rc::new(alloc, head)?)
}

/// The rest of a file after its head, if the head is at least half of it.
fn behind<'a>(head: &[u8], file: &'a [u8]) -> Option<&'a [u8]>
    ensures { IfSome result (λ rest. file.now ≡ head.now ++ rest.now) }
{
    let rest = file.strip_prefix(head)?;
    if rest.len() > head.len() {
        return None;
    }
    Some(rest)
}

/// The bytes of a head, followed by others.
fn joined(alloc: Global, head: &[u8], rest: &[u8]) -> Result<Vec<u8>, AllocError>
    ensures { IfOk result (λ bytes. bytes.items ≡ head.now ++ rest.now) }
{
    let mut bytes = Vec::with_capacity(alloc, head.len() + rest.len())?;
    bytes.extend_from_slice(head)?;
    bytes.extend_from_slice(rest)?;
    Ok(bytes)
}

/// The replica of a file that a replica saved, which shares the given query if the file has it. Such a file has no fault, so the only
/// error is out of memory.
fn replica_of(alloc: Global, known: Option<&Query>, file: &[u8]) -> Result<Replica, AllocError>
    requires { IsReplicaFile file.now }
    ensures { IfOk result (IsLoaded file.now) }
{
    match Replica::load_sharing(alloc, known, file) {
        Ok(replica) => Ok(replica),
        Err(why) => match why {
            SummaryError::NoMemory => Err(AllocError),
            _ => unreachable!(),
        },
    }
}

impl SavedFile {
    /// The file of these bytes, given the head of its query, if there is one.
    pub(crate) fn new(
        alloc: Global,
        head: &Option<Head>,
        bytes: Vec<u8>,
    ) -> Result<SavedFile, AllocError>
        ensures { IfOk result (λ file. file ≡ bytes.items) }
    {
        if let Some(head) = head {
            if let Some(rest) = behind(head, &bytes) {
                let rest = rest.to_vec(alloc)?;
                let head = Some(head.clone()?);
                return Ok(SavedFile { head, rest });
            }
        }
        Ok(SavedFile {
            head: None,
            rest: bytes,
        })
    }

    /// The replica of the file, which shares the given query. A replica saved it, so the only error is out of memory.
    pub(crate) fn replica(
        &self,
        alloc: Global,
        known: Option<&Query>,
    ) -> Result<Replica, AllocError>
        requires { IsReplicaFile self.now }
        ensures { IfOk result (IsLoaded self.now) }
    {
        let Some(head) = &self.head else {
            return replica_of(alloc, known, &self.rest);
        };
        let bytes = joined(alloc, head, &self.rest)?;
        replica_of(alloc, known, &bytes)
    }
}
