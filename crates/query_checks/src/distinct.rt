//! The distinct ones of names, calls and places.

ghost use Rattle.std.specs.Prelude.{◌≡◌, ◌<◌, ◌≤◌, length, OnOk, IfOk};
ghost use Rattle.std.specs.List.{list_any};
ghost use Rattle.query_checks.specs.Sameness.{with_one, first_of_each};

use crate::condition::AggCall;
use crate::same::is_same_call;
use std::alloc::{AllocError, Global};

/// What can be the same as another of its kind.
pub(crate) trait Same {
    ghost use Rattle.std.specs.Prelude.{Bool};

    // Whether two are the same.
    ghost same: { Self → Self → Bool };

    /// Whether it is the same as another.
    fn is_same(&self, other: &Self) -> bool
        ensures { result ≡ same self.now other.now };
}

impl Same for usize {
    ghost use Rattle.std.specs.Prelude.{◌==◌};

    ghost same = { ◌==◌ };

    fn is_same(&self, other: &usize) -> bool {
        *self == *other
    }
}

impl<'a> Same for &'a str {
    ghost use Rattle.std.specs.Str.{bytes_eq};

    ghost same = { λ name other. bytes_eq name.now other.now };

    fn is_same(&self, other: &&'a str) -> bool {
        *self == *other
    }
}

impl<'a, C: PartialEq> Same for &'a AggCall<C> {
    ghost use Rattle.query_checks.specs.Forms.{call_form};
    ghost use Rattle.query_checks.specs.Sameness.{form_eq};

    ghost same = { λ call other. form_eq C.eq (call_form call.now) (call_form other.now) };

    fn is_same(&self, other: &&'a AggCall<C>) -> bool {
        is_same_call(*self, *other)
    }
}

/// Whether one that is the same is among others.
fn is_among<T: Same>(members: &[T], member: &T) -> bool
    ensures { result ≡ list_any (T.same member.now) members.now }
{
    members.iter().any(|other| member.is_same(other))
}

/// Adds a member to others, unless one that is the same is there.
#[tactic(auto, using(crate::proofs::DistinctLaws::with_one_more, crate::proofs::DistinctLaws::with_one_there))]
pub(crate) fn push_once<T: Same + Copy>(members: &mut Vec<T>, member: T) -> Result<(), AllocError>
    ensures { OnOk result (members.new.items ≡ with_one T.same members.old.items member) }
{
    if is_among(members, &member) {
        return Ok(());
    }
    members.push(member)?;
    Ok(())
}

/// The distinct ones of some, by the first of each. The search stops once there are more than `most`.
pub(crate) fn distinct<T: Same + Copy>(
    alloc: Global,
    members: &[T],
    most: usize,
) -> Result<Vec<T>, AllocError>
    ensures all { IfOk result (λ found. length found.items ≤ most →
        found.items ≡ first_of_each T.same members.now) }
    ensures more { IfOk result (λ found. most < length found.items →
        most < length (first_of_each T.same members.now)) }
{
    let mut found = Vec::new(alloc);
    for member in members {
        push_once(&mut found, *member)?;
        if found.len() > most {
            return Ok(found);
        }
    }
    Ok(found)
}
