//! The aggregate functions by name (PostgreSQL 17, 9.21 Aggregate Functions).

ghost use Rattle.std.specs.Prelude.{◌≡◌, option_map, find, Contains};
ghost use Rattle.packed_rows.specs.View.{kind_of};
ghost use Rattle.agg_protocol.specs.Signatures.{signature, functions, function_named, is_named};
ghost use Rattle.agg_protocol.specs.Kinds.{function_of, functions_of, argument_of, kind_width};
ghost use Rattle.agg_protocol.specs.declared.kind.AggKind.{AggKind};

use packed_rows::ValueKind;

/// An aggregate function of PostgreSQL 17 (9.21 Aggregate Functions).
#[derive(Clone, Copy, Debug, PartialEq, Eq)]
pub enum AggKind {
    /// `count(*)`: how many rows there are.
    CountRows,
    /// `count(x)`: how many arguments are not null.
    Count,
    /// `sum(x)`: the exact sum of the numbers.
    Sum,
    /// `min(x)`: the least number.
    Min,
    /// `max(x)`: the greatest number.
    Max,
    /// `bit_and(x)`: the bits that all numbers have.
    BitAnd,
    /// `bit_or(x)`: the bits that some number has.
    BitOr,
    /// `bit_xor(x)`: the bits that an odd number of the numbers have.
    BitXor,
    /// `bool_and(x)`: whether all truth values are true.
    BoolAnd,
    /// `bool_or(x)`: whether some truth value is true.
    BoolOr,
    /// `every(x)`: whether all truth values are true, SQL's other name of `bool_and`.
    Every,
}

/// What a function takes between its parentheses.
#[derive(Clone, Copy, PartialEq, Eq)]
pub enum Argument {
    /// `*`: each row.
    EachRow,
    /// A value of any kind.
    AnyValue,
    /// Values of this kind.
    ValuesOf(ValueKind),
}

/// A function by its name, its argument, its result and the width of its states.
#[derive(Clone, Copy)]
pub struct Signature {
    /// Its name in a query, and the name of its result's column.
    pub name: &'static str,
    /// What it takes between its parentheses.
    pub argument: Argument,
    /// The kind of its result, a numeric counting as a bigint.
    pub result: ValueKind,
    /// How many bytes a state has.
    pub width: usize,
}

impl AggKind {
    /// All functions.
    pub const ALL: [AggKind; 11] = [
        AggKind::CountRows,
        AggKind::Count,
        AggKind::Sum,
        AggKind::Min,
        AggKind::Max,
        AggKind::BitAnd,
        AggKind::BitOr,
        AggKind::BitXor,
        AggKind::BoolAnd,
        AggKind::BoolOr,
        AggKind::Every,
    ];

    /// The function's signature.
    pub fn signature(self) -> Signature
        ensures name { result.name.now ≡ (signature (function_of self)).name }
        ensures argument { argument_of result.argument ≡ (signature (function_of self)).argument }
        ensures result { kind_of result.result ≡ (signature (function_of self)).result }
        ensures width { result.width ≡ kind_width self }
    {
        let numbers = Argument::ValuesOf(ValueKind::Bigint);
        let truths = Argument::ValuesOf(ValueKind::Boolean);
        let (name, argument, result, width) = match self {
            AggKind::CountRows => ("count", Argument::EachRow, ValueKind::Bigint, 8),
            AggKind::Count => ("count", Argument::AnyValue, ValueKind::Bigint, 8),
            AggKind::Sum => ("sum", numbers, ValueKind::Bigint, 24),
            AggKind::Min => ("min", numbers, ValueKind::Bigint, 9),
            AggKind::Max => ("max", numbers, ValueKind::Bigint, 9),
            AggKind::BitAnd => ("bit_and", numbers, ValueKind::Bigint, 9),
            AggKind::BitOr => ("bit_or", numbers, ValueKind::Bigint, 9),
            AggKind::BitXor => ("bit_xor", numbers, ValueKind::Bigint, 9),
            AggKind::BoolAnd => ("bool_and", truths, ValueKind::Boolean, 1),
            AggKind::BoolOr => ("bool_or", truths, ValueKind::Boolean, 1),
            AggKind::Every => ("every", truths, ValueKind::Boolean, 1),
        };
        Signature {
            name,
            argument,
            result,
            width,
        }
    }

    /// The function's name in a query, and the name of its result's column. Both `count(*)` and `count(x)` are `count`.
    pub fn name(self) -> &'static str
        ensures { result.now ≡ (signature (function_of self)).name }
    {
        self.signature().name
    }

    /// What the function takes between its parentheses.
    pub fn argument(self) -> Argument
        ensures { argument_of result ≡ (signature (function_of self)).argument }
    {
        self.signature().argument
    }

    /// The kind of the function's result, a numeric counting as a bigint.
    pub fn result(self) -> ValueKind
        ensures { kind_of result ≡ (signature (function_of self)).result }
    {
        self.signature().result
    }

    /// How many bytes a state of the function has: 8 for the counts, 24 for a sum, 9 for a number, 1 for a truth value.
    pub fn width(self) -> usize
        ensures { result ≡ kind_width self }
    {
        self.signature().width
    }

    /// The function of this name that takes values: `count` is `count(x)`.
    pub fn named(name: &str) -> Option<AggKind>
        ensures { option_map function_of result ≡ function_named name.now }
    {
        first_named(&AggKind::ALL, name)
    }

    /// Whether this is the function's name, and the function takes values and not rows.
    fn is_named(self, name: &str) -> bool
        ensures { result ≡ is_named name.now (function_of self) }
    {
        self.argument() != Argument::EachRow && name == self.name()
    }
}

/// The first of some functions that has this name and takes values.
fn first_named(kinds: &[AggKind], name: &str) -> Option<AggKind>
    ensures { result ≡ find (λ kind. is_named name.now (function_of kind)) kinds.now }
{
    kinds.iter().copied().find(|kind| kind.is_named(name))
}

/// [`AggKind::ALL`] has every function, in the order of their numbers.
pub fn all_functions()
    ensures in_order { functions_of AggKind.ALL ≡ functions }
    ensures every { (kind : AggKind) → Contains AggKind.ALL kind }
{}
