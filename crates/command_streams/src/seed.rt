//! The seed of the group tables of a command.

ghost use Rattle.std.specs.Prelude.{◌≡◌, IfErr};
ghost use Rattle.refusals.specs.declared.error.RunError.TheVariants.{ReadFault};
ghost use Rattle.refusals.specs.declared.refusal.Refusal.TheVariants.{Run};

use crate::problem::Problem;
use hash_agg::Seed;
use replies::{Refusal, RunError};
use sentences::Reason;
use std::alloc::{AllocError, Global};
use std::io;
use std::random::RandomSource;

/// The reason why there is no seed.
fn seed_reason(alloc: Global, cause: io::Error) -> Result<Option<Reason>, AllocError> {
    let said = format!(in alloc; "the system gave none for the group tables ({cause})")?;
    Ok(Some(Reason::whole(alloc, said)))
}

/// A seed of random bytes of the system, so that nobody can choose keys that collide in a table.
pub fn system_seed<R: RandomSource + AllocGlobal>(rt: &R) -> Result<Seed, Problem<'static>>
    ensures why { IfErr result (λ problem. problem.why ≡ Run ReadFault) }
{
    let mut bytes = [0; 16];
    match rt.fill_bytes(&mut bytes) {
        Ok(()) => {
            let seed = u128::from_le_bytes(bytes);
            Ok(Seed {
                low: (seed & 0xFFFF_FFFF_FFFF_FFFF) as u64,
                high: (seed >> 64) as u64,
            })
        }
        Err(cause) => {
            let why = Refusal::Run(RunError::ReadFault);
            let reason = seed_reason(rt.alloc(), cause);
            Err(Problem::because("random bytes", why, reason))
        }
    }
}
