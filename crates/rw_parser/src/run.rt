// The runs of tokens that the items of a program are: each goes up to a semicolon of the outer braces, or to the closing
// one, which is the last token of all.
ghost use Rattle.std.specs.Prelude.{◌≡◌, ◌+◌, ◌<◌, ◌≤◌, ◌^◌, length, drop, is_some, IfSome};
ghost use Rattle.rw_parser_reading.specs.ReadProgram as spec;
ghost use Rattle.rw_parser.specs.Runs as runs;
ghost use Rattle.rw_parser.specs.Runs.{Ends};

use rw_parser_grammar::{Lexeme, Mark};
use rw_parser_patterns::{rest_of, same_mark, sees};

// How many braces are open behind a token, with so many before it; nothing where the token ends the run.
fn depth_after(depth: usize, token: &Lexeme) -> Option<usize>
    requires { depth + 1 < 2 ^ 64 }
    ensures { result ≡ runs.depth_after depth token.now }
{
    let Lexeme::Mark(_, mark) = token else {
        return Some(depth);
    };
    if same_mark(*mark, Mark::OpensBlock) {
        return Some(depth + 1);
    }
    if same_mark(*mark, Mark::ClosesBlock) {
        return if depth == 0 { None } else { Some(depth - 1) };
    }
    if same_mark(*mark, Mark::Semicolon) && depth == 0 {
        return None;
    }
    Some(depth)
}

/// How many tokens the run has, before the one that ends it.
pub fn run_length(tokens: &[Lexeme]) -> Option<usize>
    ensures ends { Ends tokens.now result }
    ensures within { IfSome result (λ run. run < length tokens.now) }
{
    let mut depth = 0;
    for (index, token) in tokens.iter().enumerate() {
        match depth_after(depth, token) {
            Some(next) => depth = next,
            None => return Some(index),
        }
    }
    None
}

/// The tokens from this one on.
pub fn tokens_from(tokens: &[Lexeme], index: usize) -> &[Lexeme]
    requires { index ≤ length tokens.now }
    ensures { result.now ≡ drop index tokens.now }
{
    &tokens[index..]
}

fn is_none(tokens: &[Lexeme]) -> bool
    ensures { result ≡ spec.is_none tokens.now }
{
    matches!(tokens, [])
}

/// The tokens behind the opening brace are runs up to the closing one.
pub fn are_runs(tokens: &[Lexeme]) -> bool
    ensures { result ≡ is_some (spec.runs_at (length tokens.now) tokens.now) }
{
    let mut rest = tokens;
    for _turn in 0..tokens.len() {
        let Some(run) = run_length(rest) else {
            return false;
        };
        let end = tokens_from(rest, run);
        let behind = rest_of(end);
        if sees(end, Mark::ClosesBlock) {
            return is_none(behind);
        }
        rest = behind;
    }
    false
}
