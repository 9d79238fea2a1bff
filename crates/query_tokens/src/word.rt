//! Tokens.

/// A symbol, which is a token by itself.
#[derive(Clone, Copy, Debug, PartialEq, Eq)]
pub enum Symbol {
    /// `(`
    Open,
    /// `)`
    Close,
    /// `,`
    Comma,
    /// `*`
    Star,
    /// `;`
    Semicolon,
    /// `=`
    Equal,
    /// `<>` or `!=`
    Unequal,
    /// `<`
    Less,
    /// `<=`
    AtMost,
    /// `>`
    More,
    /// `>=`
    AtLeast,
}

/// What a token says.
#[derive(Drop)]
pub enum Word {
    /// A name or a key word, in lower case: 1 to 63 bytes of ASCII, a letter or `_` and then letters, digits and `_`.
    Name(String),
    /// An integer with its sign.
    Integer(i64),
    /// What stands between a string's quotes, two quotes being one. The character 0 is not in it.
    Text(String),
    /// A symbol.
    Symbol(Symbol),
}

/// A token and where it stands.
#[derive(Drop)]
pub struct Token {
    /// The place of its first byte, counted in bytes from 0. An integer begins at its minus sign, a string at its
    /// quote.
    pub at: usize,
    /// What it says.
    pub word: Word,
}
