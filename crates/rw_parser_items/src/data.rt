// Data types (Haskell 2010 Report, sections 4.2.1, 4.2.3 and 4.3.3). The grammar rule stands above each function.
ghost use Rattle.std.specs.Prelude.{◌≡◌, ◌<◌, ◌≤◌, length, IfOk};
ghost use Rattle.rw_parser_reading.specs.Read.{separated_at};
ghost use Rattle.rw_parser_reading.specs.Read as reads;
ghost use Rattle.rw_parser_reading.specs.Frames.{frames_of_constructor};
ghost use Rattle.rw_parser_reading.specs.ReadDeclarations as spec;
ghost use Rattle.rw_parser_grammar.specs.declared.lexeme.Mark.TheVariants as m;
ghost use Rattle.rw_parser_patterns.specs.Depth.{any_type_at};
ghost use Rattle.rw_base.specs.Answers.{Gives};
ghost use Rattle.rw_parser_patterns.specs.Given.{counted};
ghost use Rattle.rw_parser_items.specs.Kept as keep;
ghost use Rattle.rw_parser_items.specs.Named as named;

use crate::list::{Named, names, variable};
use rw_base::{Name, NotSpelled, OutOfMemory, Span, Unread};
use rw_parser_grammar::{Lexeme, Mark};
use rw_parser_patterns::{
    added, after, atype, atypes, constructor_name, next_spot, rest_of, sees, span_at,
};
use rw_tree::{Constructor, DataDecl, Decl, Written};
use sqlite_items::Items;
use std::alloc::Global;

/// data ::= `data` Con var* [`=` constr (`|` constr)*] [deriving], behind which stands what follows
#[tactic(auto, unfolding(crate::specs::Kept::data_kept))]
pub fn data_type(
    alloc: Global,
    room: usize,
    tokens: &[Lexeme],
) -> Result<(Option<Decl<Span>>, &[Lexeme]), Unread>
    ensures { Gives (λ x. (x.0, x.1.now)) result (keep.data_kept room tokens.now) }
{
    let (name, rest) = constructor_name(alloc, rest_of(tokens))?;
    let (params, rest) = parameters(alloc, rest)?;
    let (made, rest) = constructors(alloc, room, rest)?;
    let (_classes, rest) = derived_classes(alloc, rest)?;
    let span = span_at(next_spot(tokens), rest);
    Ok((data_of(span, name, params, made), rest))
}

/// `newtype` Con var* `=` Con atype [deriving]
#[tactic(auto, unfolding(crate::specs::Kept::newtype_kept))]
pub fn newtype(
    alloc: Global,
    room: usize,
    tokens: &[Lexeme],
) -> Result<(Option<Decl<Span>>, &[Lexeme]), Unread>
    ensures { Gives (λ x. (x.0, x.1.now)) result (keep.newtype_kept room tokens.now) }
{
    let (name, rest) = constructor_name(alloc, rest_of(tokens))?;
    let (params, rest) = parameters(alloc, rest)?;
    let (made, rest) = wrapper(alloc, room, rest)?;
    let (_classes, rest) = derived_classes(alloc, rest)?;
    let span = span_at(next_spot(tokens), rest);
    Ok((data_of(span, name, params, made), rest))
}

fn data_of(
    span: Span,
    name: Name,
    params: Items<Name>,
    made: Option<Items<Constructor>>,
) -> Option<Decl<Span>>
    ensures { result ≡ keep.data_of span name params made }
{
    match made {
        Some(constructors) => Some(Decl::Data(
            span,
            DataDecl {
                name,
                params,
                constructors,
            },
        )),
        None => None,
    }
}

fn begins_variable(tokens: &[Lexeme]) -> bool
    ensures { result ≡ reads.begins_variable tokens.now }
{
    matches!(tokens, [Lexeme::Variable(_, _), ..])
}

// var
fn parameter(alloc: Global, tokens: &[Lexeme]) -> Result<(Name, &[Lexeme]), Unread>
    ensures { Gives (λ x. (x.0, x.1.now)) result (named.parameter_at tokens.now) }
{
    let ((_, name), rest) = variable(alloc, tokens)?;
    Ok((name, rest))
}

// var*
#[tactic(auto, unfolding(rw_parser_reading::specs::ReadDeclarations::parameters_at))]
fn parameters(alloc: Global, tokens: &[Lexeme]) -> Result<(Items<Name>, &[Lexeme]), Unread>
    ensures { Gives (λ x. (x.0, x.1.now)) result (spec.parameters_at tokens.now) }
{
    let mut all = Items::new(alloc);
    let mut rest = tokens;
    for _turn in 0..tokens.len() {
        if !begins_variable(rest) {
            break;
        }
        let (one, behind) = parameter(alloc, rest)?;
        all.push(one)?;
        rest = behind;
    }
    Ok((all, rest))
}

// constr ::= Con atype*
#[tactic(auto, unfolding(crate::specs::Kept::data_constructor_kept))]
fn data_constructor(
    alloc: Global,
    room: usize,
    tokens: &[Lexeme],
) -> Result<(Option<Constructor>, &[Lexeme]), Unread>
    ensures read { Gives (λ x. (x.0, x.1.now)) result (keep.data_constructor_kept room tokens.now) }
    ensures shorter { IfOk result (λ x. length x.1.now < length tokens.now) }
{
    let (name, rest) = constructor_name(alloc, tokens)?;
    let (fields, rest) = atypes(alloc, room, rest)?;
    Ok((constructor_of(name, fields), rest))
}

fn constructor_of(name: Name, fields: Option<Items<Written>>) -> Option<Constructor>
    ensures { result ≡ keep.constructor_of name fields }
{
    match fields {
        Some(fields) => Some(Constructor { name, fields }),
        None => None,
    }
}

// [`=` constr (`|` constr)*]
#[tactic(auto, unfolding(crate::specs::Kept::constructors_kept))]
fn constructors(
    alloc: Global,
    room: usize,
    tokens: &[Lexeme],
) -> Result<(Option<Items<Constructor>>, &[Lexeme]), Unread>
    ensures { Gives (λ x. (x.0, x.1.now)) result (keep.constructors_kept room tokens.now) }
{
    if !sees(tokens, Mark::Equal) {
        return Ok((Some(Items::new(alloc)), tokens));
    }
    let (_count, made, rest) = some_constructors(alloc, room, rest_of(tokens))?;
    Ok((made, rest))
}

// constr (`|` constr)*: how many, and the constructors
fn some_constructors(
    alloc: Global,
    room: usize,
    tokens: &[Lexeme],
) -> Result<(usize, Option<Items<Constructor>>, &[Lexeme]), Unread>
    ensures { Gives (λ x. (x.0, (x.1, x.2.now))) result (counted frames_of_constructor room (separated_at m.Bar (spec.data_constructor_at any_type_at) (length tokens.now) tokens.now)) }
{
    let mut all = Some(Items::new(alloc));
    let mut rest = tokens;
    for turn in 0..tokens.len() {
        let (one, behind) = data_constructor(alloc, room, rest)?;
        all = added(all, one)?;
        if !sees(behind, Mark::Bar) {
            return Ok((turn + 1, all, behind));
        }
        rest = rest_of(behind);
    }
    Err(Unread::Refused(NotSpelled))
}

// `=` Con atype
#[tactic(auto, unfolding(crate::specs::Kept::wrapper_kept))]
fn wrapper(
    alloc: Global,
    room: usize,
    tokens: &[Lexeme],
) -> Result<(Option<Items<Constructor>>, &[Lexeme]), Unread>
    ensures { Gives (λ x. (x.0, x.1.now)) result (keep.wrapper_kept room tokens.now) }
{
    let rest = after(tokens, Mark::Equal)?;
    let (name, rest) = constructor_name(alloc, rest)?;
    let (field, rest) = atype(alloc, room, rest)?;
    Ok((only_constructor(alloc, name, field)?, rest))
}

fn only_constructor(
    alloc: Global,
    name: Name,
    field: Option<Written>,
) -> Result<Option<Items<Constructor>>, OutOfMemory>
    ensures { IfOk result (λ made. made ≡ keep.only_constructor name field) }
{
    match field {
        Some(field) => {
            let mut fields = Items::new(alloc);
            fields.push(field)?;
            let mut all = Items::new(alloc);
            all.push(Constructor { name, fields })?;
            Ok(Some(all))
        }
        None => Ok(None),
    }
}

// [deriving], where deriving ::= `deriving` (Con | `(` [Con (`,` Con)*] `)`)
#[tactic(auto, unfolding(rw_parser_reading::specs::ReadDeclarations::deriving_at))]
fn derived_classes(alloc: Global, tokens: &[Lexeme]) -> Result<(Items<Name>, &[Lexeme]), Unread>
    ensures { Gives (λ x. (x.0, x.1.now)) result (spec.deriving_at tokens.now) }
{
    if sees(tokens, Mark::Deriving) {
        return derived(alloc, rest_of(tokens));
    }
    Ok((Items::new(alloc), tokens))
}

// Con | `(` [Con (`,` Con)*] `)`
#[tactic(auto, unfolding(rw_parser_reading::specs::ReadDeclarations::derived_at))]
fn derived(alloc: Global, tokens: &[Lexeme]) -> Result<(Items<Name>, &[Lexeme]), Unread>
    ensures { Gives (λ x. (x.0, x.1.now)) result (spec.derived_at tokens.now) }
{
    if sees(tokens, Mark::Opens) {
        return classes(alloc, rest_of(tokens));
    }
    let (name, rest) = constructor_name(alloc, tokens)?;
    let mut all = Items::new(alloc);
    all.push(name)?;
    Ok((all, rest))
}

// [Con (`,` Con)*] `)`
#[tactic(auto, unfolding(rw_parser_reading::specs::ReadDeclarations::classes_at))]
fn classes(alloc: Global, tokens: &[Lexeme]) -> Result<(Items<Name>, &[Lexeme]), Unread>
    ensures { Gives (λ x. (x.0, x.1.now)) result (spec.classes_at tokens.now) }
{
    if sees(tokens, Mark::Closes) {
        return Ok((Items::new(alloc), rest_of(tokens)));
    }
    let (all, rest) = names(alloc, Named::Class, tokens)?;
    let rest = after(rest, Mark::Closes)?;
    Ok((all, rest))
}
