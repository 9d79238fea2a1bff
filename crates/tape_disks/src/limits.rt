//! The size of a page (own). Definitions and code cite this constant, so that it stands once.
ghost use Rattle.std.specs.Prelude.{◌≡◌};

/// How many bytes a page has.
pub const PAGE: usize = 8192;

/// A law: this is the size.
pub fn page_size()
    ensures { PAGE ≡ 8192 }
{}
