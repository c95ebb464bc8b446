// Runs of bytes of a kind (IEEE Std 1076-1993, sections 13.2 to 13.8).
ghost use Rattle.std.specs.Prelude.{◌≡◌, drop};
ghost use Rattle.std.specs.List.{prefix_len};
ghost use Rattle.vh_tree.specs.Text as text;
ghost use Rattle.vh_tree_reading.specs.Scan as spec;
ghost use Rattle.vhdl_read.specs.Kinds.{is_in};

// What a run of bytes is of: a word, a number, a comment, or a string of the nine values.
#[derive(Clone, Copy, Debug, PartialEq, Eq)]
pub enum Class {
    Word,
    Digit,
    Line,
    Bit,
}

fn belongs(class: Class, b: u8) -> bool
    ensures { result ≡ is_in class b }
{
    match class {
        Class::Word => b.is_ascii_alphabetic() || (b.is_ascii_digit() || b == b'_'),
        Class::Digit => b.is_ascii_digit(),
        Class::Line => b != b'\n',
        Class::Bit => is_bit(b),
    }
}

fn is_bit(b: u8) -> bool
    ensures { result ≡ spec.is_bit b }
{
    b == b'U'
        || b == b'X'
        || b == b'0'
        || b == b'1'
        || b == b'Z'
        || b == b'W'
        || b == b'L'
        || b == b'H'
        || b == b'-'
}

pub fn is_white(b: u8) -> bool
    ensures { result ≡ text.is_white b }
{
    b == b' ' || b == b'\n' || b == b'\t' || b == b'\r'
}

pub fn is_allowed(b: u8) -> bool
    ensures { result ≡ text.is_allowed b }
{
    b == b'\t' || b == b'\n' || b == b'\r' || 32 <= b && b <= 126
}

pub fn first_is(bytes: &[u8], wanted: u8) -> bool
    ensures { result ≡ text.first_is wanted bytes.now }
{
    match bytes {
        [] => false,
        [b, ..] => *b == wanted,
    }
}

// The bytes but for the first.
pub fn past(bytes: &[u8]) -> &[u8]
    ensures { result.now ≡ drop 1 bytes.now }
{
    match bytes {
        [] => bytes,
        [_, rest @ ..] => rest,
    }
}

// How long the run at the front is.
fn run_len(class: Class, bytes: &[u8]) -> usize
    ensures { result ≡ prefix_len (is_in class) bytes.now }
{
    for (i, b) in bytes.iter().enumerate() {
        if !belongs(class, *b) {
            return i;
        }
    }
    bytes.len()
}

// The longest run at the front, and what is behind it.
#[tactic(auto, using(crate::proofs::Runs::run_is, crate::proofs::Runs::behind_is))]
pub fn split(class: Class, bytes: &[u8]) -> (&[u8], &[u8])
    ensures run { result.0.now ≡ spec.run (is_in class) bytes.now }
    ensures behind { result.1.now ≡ spec.behind (is_in class) bytes.now }
{
    let n = run_len(class, bytes);
    bytes.split_at(n)
}
