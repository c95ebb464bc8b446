// Tokens one by one, from the front of a list.
ghost use Rattle.std.specs.Prelude.{◌≡◌, drop};
ghost use Rattle.explicit_form.specs.Words.{words_of};
ghost use Rattle.explicit_form.specs.Words as words;
ghost use Rattle.explicit_form.specs.Read as reads;
ghost use Rattle.rw_base.specs.Answers.{Gives};

use rw_base::{Name, NotSpelled, Unread};
use rw_lex::{Token, TokenKind};

#[tactic(auto, unfolding(crate::specs::Words::same_kind))]
fn same_kind(a: TokenKind, b: TokenKind) -> bool
    ensures { result ≡ words.same_kind a b }
{
    a == b
}

// The next token has this kind and this text.
pub fn sees(tokens: &[Token], kind: TokenKind, text: &[u8]) -> bool
    ensures { result ≡ words.sees (record { kind = kind; text = text.now }) (words_of tokens.now) }
{
    match tokens {
        [token, ..] => same_kind(token.kind, kind) && token.text.as_slice() == text,
        [] => false,
    }
}

// The tokens but for the first.
pub fn rest_of(tokens: &[Token]) -> &[Token]
    ensures { words_of result.now ≡ drop 1 (words_of tokens.now) }
{
    match tokens {
        [] => tokens,
        [_, rest @ ..] => rest,
    }
}

// The tokens after one of this kind and this text.
#[tactic(auto, unfolding(crate::specs::Read::after))]
pub fn after<'a>(tokens: &'a [Token], kind: TokenKind, text: &[u8]) -> Result<&'a [Token], Unread>
    ensures { Gives (λ r. words_of r.now) result (reads.after (record { kind = kind; text = text.now }) (words_of tokens.now)) }
{
    if sees(tokens, kind, text) {
        Ok(rest_of(tokens))
    } else {
        Err(Unread::Refused(NotSpelled))
    }
}

// A name of this kind, and the tokens after it.
pub fn name(tokens: &[Token], kind: TokenKind) -> Result<(&Name, &[Token]), Unread>
    ensures { Gives (λ x. (x.0.now, words_of x.1.now)) result (reads.name_at kind (words_of tokens.now)) }
{
    match tokens {
        [token, rest @ ..] if same_kind(token.kind, kind) => Ok((&token.text, rest)),
        _ => Err(Unread::Refused(NotSpelled)),
    }
}
