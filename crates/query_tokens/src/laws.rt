//! Laws of tokens: reading undoes spelling, and all tokens that are read can be spelled.

ghost use Rattle.std.specs.Prelude.{◌≡◌, ◌++◌, ◌∷◌, [], ◌<◌, ◌≢◌, List, ℕ, ℤ, true, false, length, Ok, Err, Contains};
ghost use Rattle.query_tokens.specs.declared.word.Symbol.{Symbol};
ghost use Rattle.query_tokens.specs.declared.fault.Fault.{Fault};
ghost use Rattle.query_tokens.specs.declared.fault.Fault.TheVariants.{Syntax};
ghost use Rattle.query_tokens.specs.Bytes.{first_is};
ghost use Rattle.query_tokens.specs.Spelling.{IsName, IsLexeme, EndsBefore, AreApart, Piece, spell, text_of, lexemes_in, lexemes_of};
ghost use Rattle.query_tokens.specs.Spelling.{lexemes_read, LastEndsBefore, runs_on, is_closed, with_spaces};
ghost use Rattle.query_tokens.specs.Tokens.{word_at, tokens_at, tokens_in};
ghost use Rattle.query_tokens.specs.Wholes.{MakeUp};
ghost use Rattle.query_tokens.specs.Words.{Lexeme, Name, Integer, Text, Sign, Placed, RiseWithin};

/// Reading undoes spelling: of a lexeme before bytes that don't continue it, and of a text of lexemes and spaces at
/// any place. So no two lexemes share a spelling, and no two lists of lexemes share a text.
#[tactic(auto, using(crate::specs::Lemmas::Respelled::word_again, crate::specs::Lemmas::Pieces::pieces_again, crate::proofs::Pieces::tokens_again, crate::proofs::Pieces::no_fault, crate::specs::Lemmas::Pieces::spaced_again, crate::proofs::Pieces::one_spelling, crate::proofs::Pieces::one_text))]
pub fn spelling_is_read()
    ensures word { (at : ℕ) (w : Lexeme) (rest : List ℕ) → IsLexeme w → EndsBefore w rest →
        word_at at (spell w ++ rest) ≡ Ok (w, rest) }
    ensures pieces { (at : ℕ) (pieces : List Piece) → AreApart pieces →
        lexemes_read (tokens_at 0 at (text_of pieces)) ≡ Ok (lexemes_in pieces) }
    ensures text { (pieces : List Piece) → AreApart pieces →
        lexemes_read (tokens_in (text_of pieces)) ≡ Ok (lexemes_in pieces) }
    ensures tokens { (pieces : List Piece) (ts : List Placed) → AreApart pieces →
        tokens_in (text_of pieces) ≡ Ok ts → lexemes_of ts ≡ lexemes_in pieces }
    ensures no_fault { (pieces : List Piece) (fault : Fault) → AreApart pieces →
        tokens_in (text_of pieces) ≢ Err fault }
    ensures with_spaces { (ws : List Lexeme) → ((w : Lexeme) → Contains ws w → IsLexeme w) →
        lexemes_read (tokens_in (text_of (with_spaces ws))) ≡ Ok ws }
    ensures one_spelling { (w v : Lexeme) → IsLexeme w → IsLexeme v → spell w ≡ spell v → w ≡ v }
    ensures one_text { (these those : List Piece) → AreApart these → AreApart those →
        text_of these ≡ text_of those → lexemes_in these ≡ lexemes_in those }
{}

/// Each lexeme that is read can be spelled, and is then read again. A name has 1 to 63 bytes in lower case, an integer
/// has 64 bits, and no string has the character 0.
#[tactic(auto, using(crate::specs::Lemmas::Legal::word_legal, crate::specs::Lemmas::Legal::read_legal, crate::specs::Lemmas::Legal::respelled))]
pub fn what_is_read()
    ensures word { (at : ℕ) (bytes : List ℕ) (w : Lexeme) (rest : List ℕ) →
        word_at at bytes ≡ Ok (w, rest) → IsLexeme w }
    ensures lexeme { (text : List ℕ) (ts : List Placed) (w : Lexeme) → tokens_in text ≡ Ok ts →
        Contains (lexemes_of ts) w → IsLexeme w }
    ensures name { (text : List ℕ) (ts : List Placed) (name : List ℕ) → tokens_in text ≡ Ok ts →
        Contains (lexemes_of ts) (Name name) → IsName name }
    ensures respelled { (text : List ℕ) (ts : List Placed) → tokens_in text ≡ Ok ts →
        lexemes_read (tokens_in (text_of (with_spaces (lexemes_of ts)))) ≡ Ok (lexemes_of ts) }
{}

/// Where a lexeme ends: any lexeme at the end of a text, before a space and before bytes that continue none; a name,
/// an integer or a string before a symbol; and all symbols but `<` and `>` before anything.
#[tactic(auto, using(crate::specs::EndLaws::before_others, crate::proofs::Ends::before_lexeme))]
pub fn ends_of_lexemes()
    ensures at_end { (w : Lexeme) → EndsBefore w [] }
    ensures before_space { (w : Lexeme) (rest : List ℕ) → EndsBefore w (32 ∷ rest) }
    ensures before_others { (w : Lexeme) (rest : List ℕ) → first_is runs_on rest ≡ false →
        EndsBefore w rest }
    ensures before_lexeme { (w v : Lexeme) (rest : List ℕ) → IsLexeme v → EndsBefore w (spell v) →
        EndsBefore w (spell v ++ rest) }
    ensures name_before_symbol { (name : List ℕ) (symbol : Symbol) (rest : List ℕ) →
        EndsBefore (Name name) (spell (Sign symbol) ++ rest) }
    ensures integer_before_symbol { (z : ℤ) (symbol : Symbol) (rest : List ℕ) →
        EndsBefore (Integer z) (spell (Sign symbol) ++ rest) }
    ensures text_before_symbol { (text : List ℕ) (symbol : Symbol) (rest : List ℕ) →
        EndsBefore (Text text) (spell (Sign symbol) ++ rest) }
    ensures closed_symbol { (symbol : Symbol) (rest : List ℕ) → is_closed symbol ≡ true →
        EndsBefore (Sign symbol) rest }
{}

/// Joining two lists of pieces joins their texts and their lexemes. The lexemes stay apart if the last one of the first
/// list ends before the text of the second.
#[tactic(auto, using(crate::proofs::Ends::joined_text, crate::proofs::Ends::joined_lexemes, crate::proofs::Ends::joined_apart, crate::proofs::Ends::last_before_others))]
pub fn joined_pieces()
    ensures text { (front back : List Piece) →
        text_of (front ++ back) ≡ text_of front ++ text_of back }
    ensures lexemes { (front back : List Piece) →
        lexemes_in (front ++ back) ≡ lexemes_in front ++ lexemes_in back }
    ensures apart { (front back : List Piece) → AreApart front → AreApart back →
        LastEndsBefore front (text_of back) → AreApart (front ++ back) }
    ensures last { (front : List Piece) (rest : List ℕ) → first_is runs_on rest ≡ false →
        LastEndsBefore front rest }
{}

/// The places of tokens rise and lie in the text, and so does the place of a fault.
#[tactic(auto, using(crate::proofs::Places::tokens_rise, crate::proofs::Places::fault_within))]
pub fn places_in_text()
    ensures tokens { (text : List ℕ) (ts : List Placed) → tokens_in text ≡ Ok ts →
        RiseWithin 0 (length text) ts }
    ensures fault { (text : List ℕ) (at : ℕ) → tokens_in text ≡ Err (Syntax at) → at < length text }
{}

/// The tokens of a text make up the whole text, with the white space before, between and after them.
#[tactic(auto, using(crate::proofs::Wholes::whole_text))]
pub fn texts_are_made_of_tokens()
    ensures { (text : List ℕ) (ts : List Placed) → tokens_in text ≡ Ok ts → MakeUp 0 ts text }
{}
