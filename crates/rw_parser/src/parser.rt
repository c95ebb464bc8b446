// Whole programs, from their tokens to trees whose chains are grouped.
ghost use Rattle.std.specs.Prelude.{◌≡◌, ◌≤◌, ℕ, length, Ok, Err, IfOk};
ghost use Rattle.rw_base.specs.declared.place.Place.{Place};
ghost use Rattle.rw_base.specs.declared.place.Span.{Span};
ghost use Rattle.rw_base.specs.declared.fail.Failure.TheVariants as fail;
ghost use Rattle.rw_base.specs.declared.rule.Rule.TheVariants as rule;
ghost use Rattle.rw_tree.specs.declared.program.Program.{Program};
ghost use Rattle.rw_parser_grammar.specs.Chains.{strength_of_name};
ghost use Rattle.rw_parser_grammar.specs.Grammar as grammar;
ghost use Rattle.rw_parser_grammar.specs.Grammar.{Spells, IsNotOfTheGrammar};
ghost use Rattle.rw_parser_reading.specs.ReadProgram as spec;
ghost use Rattle.rw_parser_grammar.specs.Resolution.{IsProgramResolved, FirstDeclarationBroken};
ghost use Rattle.rw_base.specs.Answers.{IsUnlessMemory};
ghost use Rattle.rw_base.specs.Answers.{Gives};
ghost use Rattle.rw_parser.specs.Clauses.{ReadsClauses};
ghost use Rattle.rw_parser.specs.Frame.{frame_tokens, kept_framed, Grouped, Parses};
ghost use Rattle.rw_parser.specs.Reading.{KeepsAll};

use crate::program::{broken, read_runs};
use crate::{Kept, are_runs, closed};
use rw_base::{Fail, Name, Place, Span, Unread};
use rw_lex::Token;
use rw_parser_chains::MAX_LEVELS;
use rw_parser_clauses::read_clause;
use rw_parser_fixity::resolve_fixity;
use rw_parser_grammar::{Lexeme, Mark};
use rw_parser_items::header;
use rw_parser_patterns::{after, next_spot, number_tokens};
use rw_tree::{Alt, Program};
use std::alloc::Global;

// [`module` modname [exports] `where`] `{`: the tokens behind it.
#[tactic(auto, unfolding(crate::specs::Frame::frame_tokens))]
fn framed(alloc: Global, tokens: &[Lexeme]) -> Result<&[Lexeme], Unread>
    ensures read { Gives (λ r. r.now) result (frame_tokens tokens.now) }
    ensures shorter { IfOk result (λ r. length r.now ≤ length tokens.now) }
{
    let rest = header(alloc, tokens)?;
    after(rest, Mark::OpensBlock)
}

// The place of the first token, or that of the first byte where there is none.
fn first_place(tokens: &[Lexeme]) -> Place
    ensures { result ≡ grammar.first_place tokens.now }
{
    match tokens {
        [] => Place { line: 1, column: 1 },
        _ => next_spot(tokens).place,
    }
}

// What is kept of the items of a program, or E05: at the first token where the frame of the items is broken, and else
// at the first that is no item.
fn kept_items<R: Fn(&[Lexeme]) -> Result<(Option<(Name, Alt<Span>)>, &[Lexeme]), Unread>>(
    alloc: Global,
    clause: &R,
    tokens: &[Lexeme],
) -> Result<Kept, Fail>
    requires { R.IsAlwaysCallable clause.now }
    ensures { ReadsClauses (R.post clause.now) → (n : ℕ) → length tokens.now ≤ n → KeepsAll result (kept_framed n tokens.now (spec.frame_at tokens.now)) }
{
    match framed(alloc, tokens) {
        Ok(rest) => {
            if are_runs(rest) {
                return read_runs(alloc, clause, rest);
            }
            Err(broken(first_place(tokens)))
        }
        Err(Unread::Refused(_)) => Err(broken(first_place(tokens))),
        Err(Unread::OutOfMemory) => Err(Fail::OutOfMemory),
    }
}

// The program with its chains grouped, where none of its items is too deep; else the place of the first that is, if
// none before it is broken.
fn grouped(
    alloc: Global,
    program: &Program<Span>,
    deep: Option<Place>,
) -> Result<Program<Span>, Fail>
    ensures { Grouped program.now deep result }
{
    let resolved = resolve_fixity(alloc, program)?;
    match deep {
        Some(place) => Err(broken(place)),
        None => Ok(resolved),
    }
}

// The parser over a reader of clauses. More tokens than 32 bits count are in no memory that a span could name.
fn parse_over<R: Fn(&[Lexeme]) -> Result<(Option<(Name, Alt<Span>)>, &[Lexeme]), Unread>>(
    alloc: Global,
    clause: &R,
    tokens: &[Token],
) -> Result<Program<Span>, Fail>
    requires { R.IsAlwaysCallable clause.now }
    ensures { ReadsClauses (R.post clause.now) → Parses tokens.now result }
{
    if tokens.len() > u32::MAX as usize {
        return Err(Fail::OutOfMemory);
    }
    let lexemes = number_tokens(alloc, tokens)?;
    let (joined, deep) = kept_items(alloc, clause, lexemes.as_slice())?;
    let program = Program {
        decls: closed(joined)?,
    };
    grouped(alloc, &program, deep)
}

/// The program that the tokens spell, with each chain of operators as the one tree that the fixities of its operators
/// allow (Haskell 2010 Report, chapters 3 to 5 and 10, in this project's profile).
///
/// The answer is `Refused` by E05 where the tokens spell no program: at the first item that is none, or at the first
/// token where the braces and semicolons round the items are broken. And where they spell one, but an item has a chain
/// without a tree, or has more than 512 levels: at the first such item; each clause of a function is an item.
pub fn parse(alloc: Global, tokens: &[Token]) -> Result<Program<Span>, Fail>
    ensures parses { Parses tokens.now result }
    ensures kept { (program resolved : Program Span) → Spells tokens.now program → IsProgramResolved program resolved → IsUnlessMemory (Ok resolved) result }
    ensures unspelled { (at : Place) → IsNotOfTheGrammar tokens.now at → IsUnlessMemory (Err (fail.Refused (record { rule = rule.E05; place = at }))) result }
    ensures broken { (program : Program Span) (at : Place) → Spells tokens.now program → FirstDeclarationBroken (strength_of_name program.decls) program.decls at → IsUnlessMemory (Err (fail.Refused (record { rule = rule.E05; place = at }))) result }
{
    parse_over(alloc, &|run| read_clause(alloc, MAX_LEVELS, run), tokens)
}
