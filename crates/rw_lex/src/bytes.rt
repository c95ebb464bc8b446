// The classes of bytes, and how long a run of bytes of one kind is.
ghost use Rattle.std.specs.Prelude.{◌≡◌, ◌≤◌, length};
ghost use Rattle.std.specs.List.{prefix_len};
ghost use Rattle.rw_lex.specs.Bytes as spec;

/// What a byte begins where it stands outside of comments.
#[derive(Clone, Copy, Debug, PartialEq, Eq)]
pub enum Class {
    /// Space, tab, LF, form feed and CR: gaps.
    White,
    /// `a` to `z` and `_`: variables and keywords.
    Small,
    /// `A` to `Z`: constructors.
    Capital,
    /// `0` to `9`: numbers.
    Digit,
    /// The characters of operators.
    Symbol,
    /// Brackets, comma, semicolon and backquote.
    Special,
    /// Every other byte: nothing.
    Other,
}

/// What the bytes of a run are.
#[derive(Clone, Copy, Debug, PartialEq, Eq)]
pub enum Run {
    /// Letters, digits, underscores and apostrophes.
    Word,
    /// Digits.
    Digits,
    /// The characters of operators.
    Symbols,
    /// All bytes but LF.
    Line,
}

/// The class of a byte.
pub fn class_of(b: u8) -> Class
    ensures { result ≡ spec.class_of b }
{
    match b {
        b' ' | b'\t' | b'\n' | 12 | b'\r' => Class::White,
        b'a'..=b'z' | b'_' => Class::Small,
        b'A'..=b'Z' => Class::Capital,
        b'0'..=b'9' => Class::Digit,
        b'!'
        | b'#'
        | b'$'
        | b'%'
        | b'&'
        | b'*'
        | b'+'
        | b'.'
        | b'/'
        | b'<'
        | b'='
        | b'>'
        | b'?'
        | b'@'
        | b'\\'
        | b'^'
        | b'|'
        | b'-'
        | b'~'
        | b':' => Class::Symbol,
        b'(' | b')' | b',' | b';' | b'`' | b'{' | b'}' => Class::Special,
        _ => Class::Other,
    }
}

// Whether a byte goes on with a run.
fn is_in(kind: Run, b: u8) -> bool
    ensures { result ≡ spec.is_in kind b }
{
    match kind {
        Run::Word => matches!(class_of(b), Class::Small | Class::Capital | Class::Digit)
            || b == b'\'',
        Run::Digits => matches!(class_of(b), Class::Digit),
        Run::Symbols => matches!(class_of(b), Class::Symbol),
        Run::Line => b != b'\n',
    }
}

/// How many bytes the run of this kind has that the bytes begin with.
pub fn run_len(kind: Run, bytes: &[u8]) -> usize
    ensures value { result ≡ prefix_len (spec.is_in kind) bytes.now }
    ensures within { result ≤ length bytes.now }
{
    for (i, b) in bytes.iter().enumerate() {
        if !is_in(kind, *b) {
            return i;
        }
    }
    bytes.len()
}
