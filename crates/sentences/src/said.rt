//! Sentences in the making.

ghost use Rattle.std.specs.Prelude.{◌≡◌, ◌++◌, [], true, Some, None, IfOk, OnOk, OnErr, codes, string_bytes};
ghost use Rattle.std.specs.Option.{ForSome};
ghost use Rattle.std.specs.Char.{encode_utf8};
ghost use Rattle.std.specs.Fmt.{decimal};
ghost use Rattle.sentences.specs.Pieces.{Adds, StaysRefused, is_silent};

use crate::quoted::Quoted;
use std::alloc::{AllocError, Global};
use std::fmt::Display;
use std::marker::Model;

/// A sentence in the making. It takes each piece without a result: where memory is wanting it keeps that, and is refused at its end.
#[derive(Drop)]
pub struct Said {
    text: String,
    /// Whether memory was wanting, for a piece or for what tells it.
    is_refused: bool,
}

impl Model for Said {
    ghost use Rattle.std.specs.Prelude.{ℕ, List, Option, Some, None, string_bytes, if◌then◌else◌};

    ghost Value = { Option (List ℕ) };

    ghost view = { λ said. if said.is_refused then None else Some (string_bytes said.text) };
}

impl Said {
    /// Nothing is said yet.
    pub fn new(alloc: Global) -> Said
        ensures { result ≡ Some [] }
    {
        Said {
            text: String::new(alloc),
            is_refused: false,
        }
    }

    /// Whether nothing is said yet, and no memory was wanting.
    pub fn is_silent(&self) -> bool
        ensures { result ≡ is_silent self.now }
    {
        self.text.is_empty() && !self.is_refused
    }

    /// Keeps that memory was wanting, if it was.
    fn keep(&mut self, grown: Result<(), AllocError>)
        ensures grown { OnOk grown (self.new ≡ self.old) }
        ensures refused { OnErr grown (self.new ≡ None) }
        ensures stays { self.old ≡ None → self.new ≡ None }
    {
        self.is_refused = self.is_refused || grown.is_err();
    }

    /// Adds a text.
    pub fn push_str(&mut self, piece: &str)
        ensures { Adds piece.now self.old self.new }
    {
        let grown = self.text.push_str(piece);
        self.keep(grown);
    }

    /// Adds a character.
    pub fn push(&mut self, c: char)
        ensures { Adds (encode_utf8 c) self.old self.new }
    {
        let grown = self.text.push(c);
        self.keep(grown);
    }

    /// Adds words and a text.
    pub fn text(&mut self, words: &str, text: &str)
        ensures { Adds (words.now ++ text.now) self.old self.new }
    {
        self.push_str(words);
        self.push_str(text);
    }

    /// Adds words and a number.
    pub fn number(&mut self, words: &str, number: u64)
        ensures { Adds (words.now ++ decimal number) self.old self.new }
    {
        self.push_str(words);
        let grown = self.text.write(number);
        self.keep(grown);
    }

    /// Adds words and how many or which of many it is.
    pub fn count(&mut self, words: &str, count: usize)
        ensures { Adds (words.now ++ decimal count) self.old self.new }
    {
        self.number(words, count as u64);
    }

    /// Adds bytes in quotes.
    pub fn quote(&mut self, bytes: &[u8])
        ensures { StaysRefused self.old self.new }
    {
        let grown = self.text.write(Quoted(bytes));
        self.keep(grown);
    }

    /// Adds words, and bytes in quotes.
    pub fn quoted(&mut self, words: &str, bytes: &[u8])
        ensures { StaysRefused self.old self.new }
    {
        self.push_str(words);
        self.quote(bytes);
    }

    /// Adds a value as it is displayed: what `write!` calls.
    pub fn write_fmt<D: Display + Drop>(&mut self, piece: D)
        ensures { StaysRefused self.old self.new }
    {
        let grown = self.text.write_fmt(piece);
        self.keep(grown);
    }

    /// Adds what else is to be said, if anything.
    pub fn push_aside(&mut self, aside: Option<&str>)
        ensures some { ForSome aside.entry (λ text. Adds (codes "; " ++ text.now) self.old self.new) }
        ensures none { aside.entry ≡ None → self.new ≡ self.old }
    {
        if let Some(aside) = aside {
            self.text("; ", aside);
        }
    }

    /// Adds a text that was made for the sentence.
    pub fn push_made(&mut self, made: Result<String, AllocError>)
        ensures made { IfOk made (λ text. Adds (string_bytes text) self.old self.new) }
        ensures refused { OnErr made (self.new ≡ None) }
    {
        match made {
            Ok(made) => self.push_str(&made),
            Err(AllocError) => self.is_refused = true,
        }
    }

    /// What was looked up for the sentence. Where memory was wanting it is nothing, and the sentence is refused.
    pub fn found<T>(&mut self, found: Result<Option<T>, AllocError>) -> Option<T>
        ensures given { IfOk found (λ given. (result ≡ given) × (self.new ≡ self.old)) }
        ensures refused { OnErr found (self.new ≡ None) }
    {
        match found {
            Ok(found) => found,
            Err(AllocError) => {
                self.is_refused = true;
                None
            }
        }
    }

    /// The sentence. One that lacks a piece is never given out.
    pub fn end(self) -> Result<String, AllocError>
        ensures { IfOk result (λ sentence. self ≡ Some (string_bytes sentence)) }
    {
        let Said { text, is_refused } = self;
        if is_refused {
            Err(AllocError)
        } else {
            Ok(text)
        }
    }

    /// The sentence, if anything is said.
    pub fn end_if_any(self) -> Result<Option<String>, AllocError>
        ensures whole { IfOk result (λ found. ForSome found (λ sentence. self ≡ Some (string_bytes sentence))) }
        ensures none { IfOk result (λ found. found ≡ None → is_silent self ≡ true) }
    {
        if self.is_silent() {
            return Ok(None);
        }
        Ok(Some(self.end()?))
    }
}
