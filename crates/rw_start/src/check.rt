// E15, and then E16: the first that is broken, at the first place where it is.
ghost use Rattle.std.specs.Prelude.{◌≡◌, ◌++◌, ◌<◌, IfOk, OnOk, None, map, flat_map, drop, length};
ghost use Rattle.rw_base.specs.declared.rule.Rule.TheVariants.{E15, E16};
ghost use Rattle.rw_tree.specs.Views.{itself};
ghost use Rattle.rw_tree.specs.Trees.{binding_parts, local_binding};
ghost use Rattle.rw_tree.specs.Declarations.{declaration, plain_program};
ghost use Rattle.rw_scope_rules.specs.Names.{earliest as first_of};
ghost use Rattle.rw_scope_rules.specs.Nodes.{declaration_nodes};
ghost use Rattle.rw_scope_rules.specs.Verdict.{broken_first};
ghost use Rattle.rw_systems.specs.Shown.{shown};
ghost use Rattle.rw_start.specs.Start.{improper_start, is_device_if, type_of_start as declared_type};
ghost use Rattle.rw_start.specs.Positions.{misplaced as misplaced_in, misplaced_with, strays};
ghost use Rattle.rw_base.specs.Answers.{IsJudged};
ghost use Rattle.rw_start.specs.Judged.{IsStarted};

use crate::device::is_device;
use crate::names::{in_decls, in_group};
use crate::start::{body_of, start_of, type_of_start};
use crate::system::{add_beginnings, barred, in_parts};
use rw_base::{Fail, OutOfMemory, Place, Refusal, Rule};
use rw_scope_rules::{Bound, earliest};
use rw_systems::{Parts, split};
use rw_tree::{Decl, Local, Program};
use std::alloc::Global;

// A system has at most so many devices.
const MOST_DEVICES: usize = 64;

// Refuses by this rule at the place that comes first in the source, if there is one.
fn refuse(rule: Rule, places: &[Place]) -> Result<(), Fail>
    ensures { IsJudged (broken_first rule (first_of places.now) None) result }
{
    match earliest(places) {
        None => Ok(()),
        Some(place) => Err(Fail::Refused(Refusal { rule, place })),
    }
}

// Whether `start` has a signature, and its type is that of a whole device.
fn has_device_type(alloc: Global, decls: &[Decl<Bound>]) -> Result<bool, OutOfMemory>
    ensures { IfOk result (λ is. is ≡ is_device_if (declared_type (map (declaration itself) decls.now))) }
{
    match type_of_start(decls) {
        Some(ty) => is_device(alloc, ty),
        None => Ok(false),
    }
}

// The rule on `start`.
fn judge_start(alloc: Global, program: &Program<Bound>) -> Result<(), Fail>
    ensures { IsJudged (broken_first E15 (first_of (improper_start (plain_program itself program.now))) None) result }
{
    let decls = program.decls.as_slice();
    let place = match start_of(decls) {
        None => Place::START,
        Some(start) => {
            if body_of(start.clauses).is_some() && has_device_type(alloc, decls)? {
                return Ok(());
            }
            start.place
        }
    };
    Err(Fail::Refused(Refusal {
        rule: Rule::E15,
        place,
    }))
}

// Adds all of these places but the first 64.
fn add_behind(begins: &[Place], places: &mut Vec<Place>) -> Result<(), OutOfMemory>
    ensures { OnOk result (places.new.items ≡ places.old.items ++ drop 64 begins.now) }
{
    for at in MOST_DEVICES..begins.len() {
        places.push(begins[at])?;
    }
    Ok(())
}

// Where E16 is broken in a program whose `start`, with this number, has a body of these parts and this `where`.
fn misplaced_in_system(
    alloc: Global,
    decls: &[Decl<Bound>],
    number: usize,
    parts: &Parts<'_, Bound>,
    wheres: &[Local<Bound>],
) -> Result<Vec<Place>, OutOfMemory>
    requires { number < length decls.now }
    ensures { IfOk result (λ places. places.items ≡ misplaced_with (map (declaration itself) decls.now) number (shown parts.now) (binding_parts (map (local_binding itself) wheres.now))) }
{
    let start = barred(number, parts)?;
    let mut places = Vec::new(alloc);
    in_decls(start, &decls[..number], &mut places)?;
    in_decls(start, &decls[number + 1..], &mut places)?;
    in_parts(start, parts, &mut places)?;
    in_group(start, wheres, &mut places)?;
    let mut begins = Vec::new(alloc);
    add_beginnings(parts, &mut begins)?;
    add_behind(begins.as_slice(), &mut places)?;
    Ok(places)
}

// Where it is broken in one whose `start` has no body: nothing is in place there.
fn misplaced_anywhere(alloc: Global, decls: &[Decl<Bound>]) -> Result<Vec<Place>, OutOfMemory>
    ensures { IfOk result (λ places. places.items ≡ strays None (flat_map declaration_nodes (map (declaration itself) decls.now))) }
{
    let mut places = Vec::new(alloc);
    in_decls(None, decls, &mut places)?;
    Ok(places)
}

// Where E16 is broken.
fn misplaced(alloc: Global, program: &Program<Bound>) -> Result<Vec<Place>, OutOfMemory>
    ensures { IfOk result (λ places. places.items ≡ misplaced_in (plain_program itself program.now)) }
{
    let decls = program.decls.as_slice();
    let Some(start) = start_of(decls) else {
        return misplaced_anywhere(alloc, decls);
    };
    let Some(body) = body_of(start.clauses) else {
        return misplaced_anywhere(alloc, decls);
    };
    let parts = split(alloc, body.expression)?;
    misplaced_in_system(alloc, decls, start.number, &parts, body.wheres)
}

/// Judges the rules on `start` and on systems, E15 and E16, in a program whose names are bound and that begins with the
/// declarations of the prelude; all rules before these are taken to be kept.
///
/// E15: `start` is declared by one equation without patterns and guards (Haskell 2010 Report, section 4.4.3), and its
/// signature is `ReT i o I ()` with closed data i and o. It is refused at the first token of its first clause, or at 1:1
/// where it is missing.
///
/// E16: `par` and `refold` stand only at the heads of the applications that make the system that the body of `start` is;
/// where it is one, `start` is named nowhere; and the system has at most 64 devices. It is refused at the name, or at the
/// first token of the 65th device, whichever comes first in the source.
///
/// Ok where both are kept. A program with 2^32 declarations counts as want of memory.
pub fn check_start(alloc: Global, program: &Program<Bound>) -> Result<(), Fail>
    // Ok where neither is broken, and else the first that is, at its first place.
    ensures judged { IsJudged (broken_first E15 (first_of (improper_start (plain_program itself program.now))) (broken_first E16 (first_of (misplaced_in (plain_program itself program.now))) None)) result }
    // Ok: both hold.
    ensures started { OnOk result (IsStarted (plain_program itself program.now)) }
{
    judge_start(alloc, program)?;
    let places = misplaced(alloc, program)?;
    refuse(Rule::E16, places.as_slice())
}
