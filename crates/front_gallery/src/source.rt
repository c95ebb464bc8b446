// What is asked of a source, and the answer of the stages of the front.

use crate::shown::show_last;
use crate::tokens::{texts_shown, tokens_shown};
use crate::tree::tree_of;
use rw_base::{Fail, Span};
use rw_front::front;
use rw_layout::lay_out;
use rw_lex::{Token, lex};
use rw_parser::parse;
use rw_prelude::prelude_decls;
use rw_scope::scope;
use rw_tree::Program;
use rw_types::infer;
use std::alloc::Global;

// The most bytes of a source.
const MOST: usize = 262_144;

/// What is asked of a source.
#[derive(Clone, Copy)]
pub enum Question {
    /// Its tokens, each with its kind and its place.
    Tokens,
    /// The texts of its tokens with all braces and semicolons.
    Layout,
    /// Its declarations as trees, with their chains of operators grouped.
    Trees,
    /// How many declarations it has.
    Declarations,
    /// The verdict on it: whether it breaks one of the rules E01 to E16.
    Check,
    /// The types of the numbers of its last declaration.
    Types,
}

// The tokens of a source. One that is too long has no memory.
fn tokens_of(alloc: Global, source: &[u8]) -> Result<Vec<Token>, Fail> {
    if source.len() > MOST {
        return Err(Fail::OutOfMemory);
    }
    lex(alloc, source)
}

/// The program of a source.
pub fn program_of(alloc: Global, source: &[u8]) -> Result<Program<Span>, Fail> {
    let tokens = tokens_of(alloc, source)?;
    let filled = lay_out(alloc, &tokens)?;
    parse(alloc, &filled)
}

// The program of a source behind the prelude's declarations.
fn whole_of(alloc: Global, source: &str) -> Result<Program<Span>, Fail> {
    let parsed = program_of(alloc, source.as_bytes())?;
    let mut decls = prelude_decls(alloc)?;
    decls.append(parsed.decls)?;
    Ok(Program { decls })
}

fn layout_of(alloc: Global, source: &str) -> Result<String, Fail> {
    let tokens = tokens_of(alloc, source.as_bytes())?;
    let filled = lay_out(alloc, &tokens)?;
    Ok(texts_shown(alloc, &filled)?)
}

// How many declarations a source has, and its first line.
fn declarations_of(alloc: Global, source: &str) -> Result<String, Fail> {
    let program = program_of(alloc, source.as_bytes())?;
    let first = source.lines().next().unwrap_or("");
    Ok(format!(in alloc; "ok {}: {first}", program.decls.len())?)
}

// The types of the numbers of a source's last declaration, behind the prelude's declarations.
fn types_of(alloc: Global, source: &str) -> Result<String, Fail> {
    let program = whole_of(alloc, source)?;
    let scoped = scope(alloc, &program)?;
    let typed = infer(alloc, &scoped.program)?;
    let shown = show_last(alloc, typed.as_slice(), program.decls.as_slice())?;
    Ok(shown)
}

// That the source breaks no rule, and its first line.
fn check_of(alloc: Global, source: &str) -> Result<String, Fail> {
    front(alloc, source.as_bytes())?;
    let first = source.lines().next().unwrap_or("");
    Ok(format!(in alloc; "ok: {first}")?)
}

impl Question {
    /// The question that a line asks from there on, if it asks one.
    pub fn asked_by(line: &str) -> Option<Question> {
        match line {
            "% tokens" => Some(Question::Tokens),
            "% layout" => Some(Question::Layout),
            "% trees" => Some(Question::Trees),
            "% check" => Some(Question::Check),
            "% declarations" => Some(Question::Declarations),
            "% types" => Some(Question::Types),
            _ => None,
        }
    }

    /// What is found of a source, or the rule that it breaks.
    pub fn answer(self, alloc: Global, source: &str) -> Result<String, Fail> {
        match self {
            Question::Tokens => {
                let tokens = tokens_of(alloc, source.as_bytes())?;
                Ok(tokens_shown(alloc, &tokens)?)
            }
            Question::Layout => layout_of(alloc, source),
            Question::Trees => {
                let program = program_of(alloc, source.as_bytes())?;
                Ok(tree_of(alloc, program.decls.as_slice())?)
            }
            Question::Check => check_of(alloc, source),
            Question::Declarations => declarations_of(alloc, source),
            Question::Types => types_of(alloc, source),
        }
    }
}
