// Data types, and the types of their constructors.
ghost use Rattle.std.specs.Prelude.{◌≡◌, ◌++◌, IfOk, OnOk, map};
ghost use Rattle.rw_types_solving.specs.Types.{plains};
ghost use Rattle.rw_tree.specs.Types.{writtens};
ghost use Rattle.rw_tree.specs.Declarations.{declaration, plain_constructor};
ghost use Rattle.rw_types_rules.specs.declared.kind.VariableKind.TheVariants.{Plain as PlainVariable};
ghost use Rattle.rw_types_rules.specs.Words.{variables_from};
ghost use Rattle.rw_types_rules.specs.Written.{data_types_from, type_of};
ghost use Rattle.rw_types_rules.specs.Schemes.{constructor_scheme as scheme_of_constructor, constructor_schemes as schemes_of_constructors};
ghost use Rattle.rw_types_equations.specs.Seen.{seen_scheme, seen_types};
ghost use Rattle.rw_types_world.specs.Parts.{data_type_at};

use rw_base::{Name, OutOfMemory};
use rw_scope_rules::Bound;
use rw_tree::{Constructor, Decl, Written};
use rw_types_equations::{DataName, Scheme, written_type};
use rw_types_rules::VariableKind;
use rw_types_solving::{Head, Term};
use sqlite_items::Items;
use std::alloc::Global;

// The number of a declaration or of a variable. Numbers have 32 bits: more are want of memory.
pub fn number_of(place: usize) -> Result<u32, OutOfMemory>
    ensures { IfOk result (λ number. number ≡ place) }
{
    if place > u32::MAX as usize {
        return Err(OutOfMemory);
    }
    Ok(place as u32)
}

// Adds the data type of a declaration with this number, if it is of one.
fn add_data_type(
    alloc: Global,
    types: &mut Items<DataName>,
    decl: &Decl<Bound>,
    number: u32,
) -> Result<(), OutOfMemory>
    ensures { OnOk result (seen_types types.new ≡ seen_types types.old ++ data_type_at number (declaration (λ a. a.span) decl.now)) }
{
    match decl {
        Decl::Data(_, made) => {
            let name = made.name.copied(alloc)?;
            types.push(DataName { name, number })?;
            Ok(())
        }
        _ => Ok(()),
    }
}

// The data types of these declarations.
#[tactic(auto, using(crate::proofs::Making::one_type_more))]
pub fn data_types(alloc: Global, decls: &[Decl<Bound>]) -> Result<Items<DataName>, OutOfMemory>
    ensures { IfOk result (λ types. seen_types types ≡ data_types_from 0 (map (declaration (λ a. a.span)) decls.now)) }
{
    let mut types = Items::new(alloc);
    for (i, decl) in decls.iter().enumerate() {
        add_data_type(alloc, &mut types, decl, number_of(i)?)?;
    }
    Ok(types)
}

// Each variable of a data type's head is a type.
fn head_kinds(alloc: Global, params: &[Name]) -> Result<Items<VariableKind>, OutOfMemory>
    ensures { IfOk result (λ kinds. kinds ≡ map (λ p. PlainVariable) params.now) }
{
    let mut kinds = Items::new(alloc);
    for _param in params {
        kinds.push(VariableKind::Plain)?;
    }
    Ok(kinds)
}

// The variables of a data type's head.
#[tactic(auto, using(rw_types_solving::proofs::Plains::plain_forms))]
fn head_variables(alloc: Global, params: &[Name]) -> Result<Items<Term>, OutOfMemory>
    ensures { IfOk result (λ variables. plains variables ≡ variables_from 0 params.now) }
{
    let mut variables = Items::new(alloc);
    for (i, _param) in params.iter().enumerate() {
        variables.push(Term::Var(number_of(i)?))?;
    }
    Ok(variables)
}

// The types of the fields of a constructor.
fn field_types(
    alloc: Global,
    types: &[DataName],
    params: &[Name],
    fields: &[Written],
) -> Result<Items<Term>, OutOfMemory>
    ensures { IfOk result (λ all. plains all ≡ map (type_of (seen_types types.now) params.now) (writtens fields.now)) }
{
    let mut all = Items::new(alloc);
    for field in fields {
        all.push(written_type(alloc, field, types, params)?)?;
    }
    Ok(all)
}

// The type of a constructor of the data type with this number and head.
#[tactic(auto, using(rw_types_solving::proofs::Plains::plain_forms))]
fn constructor_scheme(
    alloc: Global,
    types: &[DataName],
    number: u32,
    params: &[Name],
    made: &Constructor,
) -> Result<Scheme, OutOfMemory>
    ensures { IfOk result (λ scheme. seen_scheme scheme ≡ scheme_of_constructor (seen_types types.now) number params.now (plain_constructor made.now)) }
{
    let kinds = head_kinds(alloc, params)?;
    let takes = field_types(alloc, types, params, made.fields.as_slice())?;
    let variables = head_variables(alloc, params)?;
    Ok(Scheme {
        kinds,
        takes,
        gives: Term::App(Head::Data(number), variables),
    })
}

// The types of these constructors.
fn all_schemes(
    alloc: Global,
    types: &[DataName],
    number: u32,
    params: &[Name],
    constructors: &[Constructor],
) -> Result<Items<Scheme>, OutOfMemory>
    ensures { IfOk result (λ all. map seen_scheme all ≡ map (scheme_of_constructor (seen_types types.now) number params.now) (map plain_constructor constructors.now)) }
{
    let mut all = Items::new(alloc);
    for made in constructors {
        all.push(constructor_scheme(alloc, types, number, params, made)?)?;
    }
    Ok(all)
}

// The types of the constructors of a declaration with this number.
pub fn constructor_schemes(
    alloc: Global,
    types: &[DataName],
    number: u32,
    decl: &Decl<Bound>,
) -> Result<Items<Scheme>, OutOfMemory>
    ensures { IfOk result (λ all. map seen_scheme all ≡ schemes_of_constructors (seen_types types.now) number (declaration (λ a. a.span) decl.now)) }
{
    match decl {
        Decl::Data(_, made) => all_schemes(
            alloc,
            types,
            number,
            made.params.as_slice(),
            made.constructors.as_slice(),
        ),
        _ => Ok(Items::new(alloc)),
    }
}
