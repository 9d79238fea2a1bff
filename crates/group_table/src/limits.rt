//! The longest keys and states (own). Definitions and code cite this constant, so that it stands once.
ghost use Rattle.std.specs.Prelude.{◌≡◌};

/// The most bytes of a key, and of a state.
pub const LONGEST: usize = 65_535;

/// A law: this is the length.
pub fn longest()
    ensures { LONGEST ≡ 65535 }
{}
