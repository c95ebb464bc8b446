// The piece that bytes begin with: a gap or a token, as long as it can be.
ghost use Rattle.std.specs.Prelude.{◌≡◌, ◌<◌, ◌≤◌, IfSome, length};
ghost use Rattle.std.specs.List.{prefix_len};
ghost use Rattle.rw_lex.specs.Bytes.{is_in};
ghost use Rattle.rw_lex.specs.Scan as spec;
ghost use Rattle.rw_lex.specs.declared.bytes.Run.TheVariants as run;
ghost use Rattle.rw_lex.specs.Tokens.{is_dashes, is_word_of, is_keyword, declaration_words, inner_words, word_kind};

use crate::TokenKind;
use crate::bytes::{Class, Run, class_of, run_len};

/// What bytes begin with, and how many bytes it has.
#[derive(Clone, Copy, Debug, PartialEq, Eq)]
pub enum Piece {
    /// White space or a comment.
    Gap(usize),
    /// A token of this kind.
    Token(TokenKind, usize),
    /// A block comment that goes on to the end of the source.
    Unclosed,
    /// Neither a gap nor a token.
    Nothing,
}

impl Piece {
    /// How many bytes the piece has; 0 where it breaks a rule.
    pub fn len(self) -> usize
        ensures { result ≡ spec.len_of self }
    {
        match self {
            Piece::Gap(len) => len,
            Piece::Token(_, len) => len,
            Piece::Unclosed => 0,
            Piece::Nothing => 0,
        }
    }
}

// How many bytes close a block comment that is open in front of them, if they close it.
#[tactic(auto, unfolding(crate::specs::Scan::closing_len))]
fn closing_len(bytes: &[u8]) -> Option<usize>
    ensures value { result ≡ spec.closing_len 1 0 bytes.now }
    ensures within { IfSome result (λ len. len ≤ length bytes.now) }
{
    let mut depth = 1usize;
    let mut before = 0u8;
    for (i, b) in bytes.iter().enumerate() {
        if before == b'{' && *b == b'-' {
            depth += 1;
            before = 0;
        } else if before == b'-' && *b == b'}' {
            if depth == 1 {
                return Some(i + 1);
            }
            depth -= 1;
            before = 0;
        } else {
            before = *b;
        }
    }
    None
}

// Whether `{-` stands in front.
fn opens_comment(bytes: &[u8]) -> bool
    ensures { result ≡ spec.begins_comment bytes.now }
{
    match bytes {
        [a, b, ..] => *a == b'{' && *b == b'-',
        _ => false,
    }
}

// A bracket, comma, semicolon or backquote, or a block comment.
#[tactic(auto, unfolding(crate::specs::Scan::special_at))]
fn special_at(bytes: &[u8]) -> Piece
    requires some { 0 < length bytes.now }
    ensures value { result ≡ spec.special_at bytes.now }
    ensures within { spec.len_of result ≤ length bytes.now }
{
    if !opens_comment(bytes) {
        return Piece::Token(TokenKind::Special, 1);
    }
    match closing_len(&bytes[2..]) {
        Some(len) => Piece::Gap(len + 2),
        None => Piece::Unclosed,
    }
}

// Whether an operator would be dashes alone, and so begins a line comment.
fn all_dashes(piece: &[u8]) -> bool
    ensures { result ≡ is_dashes piece.now }
{
    for b in piece {
        if *b != b'-' {
            return false;
        }
    }
    piece.len() >= 2
}

// An operator, or a line comment.
#[tactic(auto, unfolding(crate::specs::Scan::symbols_at))]
fn symbols_at(bytes: &[u8]) -> Piece
    ensures value { result ≡ spec.symbols_at (prefix_len (is_in run.Symbols) bytes.now) bytes.now }
    ensures within { spec.len_of result ≤ length bytes.now }
{
    let len = run_len(Run::Symbols, bytes);
    let (piece, behind) = bytes.split_at(len);
    if all_dashes(piece) {
        Piece::Gap(len + run_len(Run::Line, behind))
    } else {
        Piece::Token(TokenKind::Operator, len)
    }
}

// Whether a word begins a declaration.
fn begins_declaration(word: &[u8]) -> bool
    ensures { result ≡ is_word_of declaration_words word.now }
{
    word == b"class".as_slice()
        || word == b"data".as_slice()
        || word == b"default".as_slice()
        || word == b"foreign".as_slice()
        || word == b"import".as_slice()
        || word == b"infix".as_slice()
        || word == b"infixl".as_slice()
        || word == b"infixr".as_slice()
        || word == b"instance".as_slice()
        || word == b"newtype".as_slice()
        || word == b"type".as_slice()
}

// Whether a word is one of the other reserved words.
fn is_inner_word(word: &[u8]) -> bool
    ensures { result ≡ is_word_of inner_words word.now }
{
    word == b"_".as_slice()
        || word == b"case".as_slice()
        || word == b"deriving".as_slice()
        || word == b"do".as_slice()
        || word == b"else".as_slice()
        || word == b"if".as_slice()
        || word == b"in".as_slice()
        || word == b"let".as_slice()
        || word == b"module".as_slice()
        || word == b"of".as_slice()
        || word == b"then".as_slice()
        || word == b"where".as_slice()
}

// Whether a word is reserved.
fn is_keyword(word: &[u8]) -> bool
    ensures { result ≡ is_keyword word.now }
{
    begins_declaration(word) || is_inner_word(word)
}

// What a word is.
fn word_kind(word: &[u8]) -> TokenKind
    ensures { result ≡ word_kind word.now }
{
    match word {
        [b, ..] if matches!(class_of(*b), Class::Capital) => TokenKind::Constructor,
        _ if is_keyword(word) => TokenKind::Keyword,
        _ => TokenKind::Variable,
    }
}

// A variable, a constructor or a keyword.
#[tactic(auto, unfolding(crate::specs::Scan::word_at))]
fn word_at(bytes: &[u8]) -> Piece
    ensures value { result ≡ spec.word_at (prefix_len (is_in run.Word) bytes.now) bytes.now }
    ensures within { spec.len_of result ≤ length bytes.now }
{
    let len = run_len(Run::Word, bytes);
    Piece::Token(word_kind(&bytes[..len]), len)
}

/// The piece that these bytes begin with.
#[tactic(auto, unfolding(crate::specs::Scan::piece_at))]
pub fn piece_at(bytes: &[u8]) -> Piece
    ensures value { result ≡ spec.piece_at bytes.now }
    ensures within { spec.len_of result ≤ length bytes.now }
{
    let [b, ..] = bytes else {
        return Piece::Nothing;
    };
    match class_of(*b) {
        Class::White => Piece::Gap(1),
        Class::Small | Class::Capital => word_at(bytes),
        Class::Digit => Piece::Token(TokenKind::Number, run_len(Run::Digits, bytes)),
        Class::Symbol => symbols_at(bytes),
        Class::Special => special_at(bytes),
        Class::Other => Piece::Nothing,
    }
}
