// The header of a module and its exports (Haskell 2010 Report, sections 5.1 and 5.2). The grammar rule stands above each
// function.
ghost use Rattle.std.specs.Prelude.{◌≡◌, ◌<◌, ◌≤◌, ◌++◌, length, drop, IfOk};
ghost use Rattle.rw_parser_reading.specs.Read.{separated_at};
ghost use Rattle.rw_parser_grammar.specs.Declarations as grammar;
ghost use Rattle.rw_parser_reading.specs.ReadDeclarations as spec;
ghost use Rattle.rw_parser_reading.specs.ReadProgram as program;
ghost use Rattle.rw_parser_grammar.specs.declared.lexeme.Mark.TheVariants as m;
ghost use Rattle.rw_base.specs.Answers.{Gives};
ghost use Rattle.rw_parser_items.specs.Named as named;

use crate::list::{Named, begins_constructor, names};
use rw_base::{Name, NotSpelled, OutOfMemory, Unread};
use rw_parser_grammar::{Lexeme, Mark};
use rw_parser_patterns::{after, constructor_name, rest_of, sees, variable_name};
use sqlite_items::Items;
use std::alloc::Global;

/// [`module` modname [exports] `where`]: the tokens behind it.
#[tactic(auto, unfolding(rw_parser_reading::specs::ReadProgram::header_at))]
pub fn header(alloc: Global, tokens: &[Lexeme]) -> Result<&[Lexeme], Unread>
    ensures read { Gives (λ r. r.now) result (program.header_at tokens.now) }
    ensures shorter { IfOk result (λ r. length r.now ≤ length tokens.now) }
{
    if !sees(tokens, Mark::Module) {
        return Ok(tokens);
    }
    let (_name, rest) = module_name(alloc, rest_of(tokens))?;
    let (_listing, rest) = exports(alloc, rest)?;
    after(rest, Mark::Where)
}

fn sees_point(tokens: &[Lexeme]) -> bool
    ensures { result ≡ spec.sees_point tokens.now }
{
    match tokens {
        [Lexeme::Operator(_, name), ..] => name.as_slice() == b".".as_slice(),
        _ => false,
    }
}

// modname ::= Con (`.` Con)*
#[tactic(auto, unfolding(rw_parser_reading::specs::ReadDeclarations::module_name_at))]
pub fn module_name(alloc: Global, tokens: &[Lexeme]) -> Result<(Items<Name>, &[Lexeme]), Unread>
    ensures read { Gives (λ x. (x.0, x.1.now)) result (spec.module_name_at tokens.now) }
    ensures shorter { IfOk result (λ x. length x.1.now < length tokens.now) }
{
    let mut all = Items::new(alloc);
    let mut rest = tokens;
    for _turn in 0..tokens.len() {
        let (one, behind) = constructor_name(alloc, rest)?;
        all.push(one)?;
        if !sees_point(behind) {
            return Ok((all, behind));
        }
        rest = rest_of(behind);
    }
    Err(Unread::Refused(NotSpelled))
}

// The parts of a module's name, joined by points.
pub fn pointed(alloc: Global, parts: &[Name]) -> Result<Name, OutOfMemory>
    ensures { IfOk result (λ made. made ≡ grammar.pointed parts.now) }
{
    match parts {
        [] => Name::from_slice(alloc, b"".as_slice()),
        [first, ..] => behind_points(alloc, first, other_names(parts)),
    }
}

// The names but for the first.
fn other_names(names: &[Name]) -> &[Name]
    ensures { result.now ≡ drop 1 names.now }
{
    match names {
        [] => names,
        [_, rest @ ..] => rest,
    }
}

// A name, and each of the others behind a point.
fn behind_points(alloc: Global, first: &Name, others: &[Name]) -> Result<Name, OutOfMemory>
    ensures { IfOk result (λ made. made ≡ first.now ++ named.with_points others.now) }
{
    let mut bytes = Vec::from_slice(alloc, first.as_slice())?;
    for name in others {
        bytes.push(b'.')?;
        bytes.extend_from_slice(name.as_slice())?;
    }
    Name::from_slice(alloc, bytes.as_slice())
}

// names `)`, where names ::= (vname | Con) (`,` (vname | Con))*
#[tactic(auto, unfolding(rw_parser_reading::specs::ReadDeclarations::entities_at))]
fn entities(alloc: Global, tokens: &[Lexeme]) -> Result<(Items<Name>, &[Lexeme]), Unread>
    ensures read { Gives (λ x. (x.0, x.1.now)) result (spec.entities_at tokens.now) }
    ensures shorter { IfOk result (λ x. length x.1.now ≤ length tokens.now) }
{
    let (all, rest) = names(alloc, Named::Entity, tokens)?;
    let rest = after(rest, Mark::Closes)?;
    Ok((all, rest))
}

// Behind an opening parenthesis: `)` | `..` `)` | names `)`
#[tactic(auto, unfolding(rw_parser_reading::specs::ReadDeclarations::inside_parts_at))]
fn inside_parts(alloc: Global, tokens: &[Lexeme]) -> Result<(Items<Name>, &[Lexeme]), Unread>
    ensures read { Gives (λ x. (x.0, x.1.now)) result (spec.inside_parts_at tokens.now) }
    ensures shorter { IfOk result (λ x. length x.1.now ≤ length tokens.now) }
{
    if sees(tokens, Mark::Closes) {
        return Ok((Items::new(alloc), rest_of(tokens)));
    }
    if sees(tokens, Mark::Dots) {
        let rest = after(rest_of(tokens), Mark::Closes)?;
        return Ok((Items::new(alloc), rest));
    }
    entities(alloc, tokens)
}

// [`(` `..` `)` | `(` [names] `)`]
#[tactic(auto, unfolding(rw_parser_reading::specs::ReadDeclarations::parts_at))]
fn parts(alloc: Global, tokens: &[Lexeme]) -> Result<(Items<Name>, &[Lexeme]), Unread>
    ensures read { Gives (λ x. (x.0, x.1.now)) result (spec.parts_at tokens.now) }
    ensures shorter { IfOk result (λ x. length x.1.now ≤ length tokens.now) }
{
    if sees(tokens, Mark::Opens) {
        return inside_parts(alloc, rest_of(tokens));
    }
    Ok((Items::new(alloc), tokens))
}

// Con parts
#[tactic(auto, unfolding(rw_parser_reading::specs::ReadDeclarations::exported_type_at))]
fn exported_type(alloc: Global, tokens: &[Lexeme]) -> Result<(Name, &[Lexeme]), Unread>
    ensures read { Gives (λ x. (x.0, x.1.now)) result (spec.exported_type_at tokens.now) }
    ensures shorter { IfOk result (λ x. length x.1.now < length tokens.now) }
{
    let (name, rest) = constructor_name(alloc, tokens)?;
    let (_parts, rest) = parts(alloc, rest)?;
    Ok((name, rest))
}

// modname, behind `module`
#[tactic(auto, unfolding(rw_parser_reading::specs::ReadDeclarations::exported_module_at))]
fn exported_module(alloc: Global, tokens: &[Lexeme]) -> Result<(Name, &[Lexeme]), Unread>
    ensures read { Gives (λ x. (x.0, x.1.now)) result (spec.exported_module_at tokens.now) }
    ensures shorter { IfOk result (λ x. length x.1.now < length tokens.now) }
{
    let (names, rest) = module_name(alloc, tokens)?;
    Ok((pointed(alloc, names.as_slice())?, rest))
}

// export ::= vname | Con parts | `module` modname
#[tactic(auto, unfolding(rw_parser_reading::specs::ReadDeclarations::export_at))]
fn export(alloc: Global, tokens: &[Lexeme]) -> Result<(Name, &[Lexeme]), Unread>
    ensures read { Gives (λ x. (x.0, x.1.now)) result (spec.export_at tokens.now) }
    ensures shorter { IfOk result (λ x. length x.1.now < length tokens.now) }
{
    if sees(tokens, Mark::Module) {
        return exported_module(alloc, rest_of(tokens));
    }
    if begins_constructor(tokens) {
        return exported_type(alloc, tokens);
    }
    let ((_, name), rest) = variable_name(alloc, tokens)?;
    Ok((name, rest))
}

// export (`,` export)*
fn some_exports(alloc: Global, tokens: &[Lexeme]) -> Result<(Items<Name>, &[Lexeme]), Unread>
    ensures read { Gives (λ x. (x.0, x.1.now)) result (separated_at m.Comma spec.export_at (length tokens.now) tokens.now) }
    ensures shorter { IfOk result (λ x. length x.1.now < length tokens.now) }
{
    let mut all = Items::new(alloc);
    let mut rest = tokens;
    for _turn in 0..tokens.len() {
        let (one, behind) = export(alloc, rest)?;
        all.push(one)?;
        if !sees(behind, Mark::Comma) {
            return Ok((all, behind));
        }
        rest = rest_of(behind);
    }
    Err(Unread::Refused(NotSpelled))
}

// Behind an opening parenthesis: `)` | export (`,` export)* `)`
#[tactic(auto, unfolding(rw_parser_reading::specs::ReadDeclarations::inside_exports_at))]
fn inside_exports(alloc: Global, tokens: &[Lexeme]) -> Result<(Items<Name>, &[Lexeme]), Unread>
    ensures read { Gives (λ x. (x.0, x.1.now)) result (spec.inside_exports_at tokens.now) }
    ensures shorter { IfOk result (λ x. length x.1.now ≤ length tokens.now) }
{
    if sees(tokens, Mark::Closes) {
        return Ok((Items::new(alloc), rest_of(tokens)));
    }
    let (all, rest) = some_exports(alloc, tokens)?;
    let rest = after(rest, Mark::Closes)?;
    Ok((all, rest))
}

// [exports], where exports ::= `(` [export (`,` export)*] `)`
#[tactic(auto, unfolding(rw_parser_reading::specs::ReadDeclarations::exports_at))]
pub fn exports(alloc: Global, tokens: &[Lexeme]) -> Result<(Items<Name>, &[Lexeme]), Unread>
    ensures read { Gives (λ x. (x.0, x.1.now)) result (spec.exports_at tokens.now) }
    ensures shorter { IfOk result (λ x. length x.1.now ≤ length tokens.now) }
{
    if sees(tokens, Mark::Opens) {
        return inside_exports(alloc, rest_of(tokens));
    }
    Ok((Items::new(alloc), tokens))
}
