//! What a caller may rely on beyond one call. Each is a function that does nothing: its clauses are
//! the laws.

ghost use Rattle.std.specs.Prelude.{◌≡◌, ◌<◌, ◌≤◌, ℕ, ◌+◌, List, ◌++◌, length, Option, IfSome};
ghost use Rattle.std.specs.Io.KnownBytes.{Appends, Consumes, IsAtEnd, Keeps};
ghost use Rattle.script_io.specs.Input.{StopsReading};
ghost use Rattle.script_io.specs.Output.{StopsShort, TakesFront};
ghost use Rattle.script_io.specs.Records.{records_of};

use crate::input::InputError;

/// Of a reader whose bytes are known: a script that was read is all of them, and one that was too long
/// has more bytes than the limit.
pub fn reads_are_whole()
    ensures whole { (old new : Option (List ℕ)) → (text : List ℕ)
        → Consumes old new text → IsAtEnd new → IfSome old (λ all. all ≡ text) }
    ensures longer { (old new : Option (List ℕ)) → (most : ℕ)
        → StopsReading old new most InputError.TooLong → IfSome old (λ all. most < length all) }
{}

/// A script has at most one record more than bytes. This bounds a loop over its records.
pub fn records_are_few()
    ensures { (script : List ℕ) → length (records_of script) ≤ length script + 1 }
{}

/// What counts as a prefix of some bytes: none of them, all of them, and what a writer took that stopped short.
pub fn fronts_range()
    ensures none { (old new : Option (List ℕ)) → (bytes : List ℕ)
        → Keeps old new → TakesFront old new bytes }
    ensures all { (old new : Option (List ℕ)) → (bytes : List ℕ)
        → Appends old new bytes → TakesFront old new bytes }
    ensures short { (old new : Option (List ℕ)) → (bytes : List ℕ)
        → StopsShort old new bytes → TakesFront old new bytes }
{}

/// Two writes in turn, of `xs` and then of `ys`. Both whole make `xs ++ ys`; if either stopped and
/// nothing more was written, the writer took a prefix of `xs ++ ys`.
pub fn writes_compose()
    ensures both { (a b c : Option (List ℕ)) → (xs ys : List ℕ)
        → Appends a b xs → Appends b c ys → Appends a c (xs ++ ys) }
    ensures first_stopped { (a b c : Option (List ℕ)) → (xs ys : List ℕ)
        → TakesFront a b xs → Keeps b c → TakesFront a c (xs ++ ys) }
    ensures second_stopped { (a b c : Option (List ℕ)) → (xs ys : List ℕ)
        → Appends a b xs → TakesFront b c ys → TakesFront a c (xs ++ ys) }
{}
