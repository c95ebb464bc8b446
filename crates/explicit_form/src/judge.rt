// Judges the names that a source declares, in the order of the source: each is free and new.
ghost use Rattle.std.specs.Prelude.{◌≡◌, ◌++◌, ◌∷◌, [], true, not, map, flat_map, IfOk, codes, find, bytes_eq, option_copied};
ghost use Rattle.explicit_form.specs.Fit.{is_among, are_free, taken_types, taken_constructors, constructors_of, names_of, fits_datas, fits_names};
ghost use Rattle.explicit_form.specs.Judged.{Judges, taken_of};
ghost use Rattle.rw_base.specs.Answers.{Gives};

use crate::form::{Data, Function};
use crate::names::Names;
use crate::taken::{Kind, is_taken};
use rw_base::{Name, NotSpelled, OutOfMemory, Unread};
use std::alloc::Global;

const MAX_FUNCTIONS: usize = 1024;

// One name more, where it is free and new.
fn add_new(alloc: Global, kind: Kind, seen: &mut Names, name: &Name) -> Result<(), Unread>
    ensures { Judges result (not (is_among name.now (taken_of kind ++ seen.old))) (λ _. seen.new ≡ seen.old ++ name.now ∷ []) }
{
    if is_taken(kind, name.as_slice()) {
        return Err(Unread::Refused(NotSpelled));
    }
    if !seen.add(name.copied(alloc)?)? {
        return Err(Unread::Refused(NotSpelled));
    }
    Ok(())
}

// These names more.
fn add_all(alloc: Global, kind: Kind, seen: &mut Names, names: &[Name]) -> Result<(), Unread>
    ensures { Judges result (are_free (taken_of kind ++ seen.old) names.now) (λ _. seen.new ≡ seen.old ++ names.now) }
{
    for name in names {
        add_new(alloc, kind, seen, name)?;
    }
    Ok(())
}

// The declared types are free and distinct.
pub fn judge_types(alloc: Global, datas: &[Data]) -> Result<(), Unread>
    ensures { Judges result (are_free taken_types (map (λ d. d.name) datas.now)) (λ _. Unit {0}) }
{
    let mut seen = Names::new(alloc);
    for data in datas {
        add_new(alloc, Kind::Data, &mut seen, &data.name)?;
    }
    Ok(())
}

// The declared constructors are free and distinct.
pub fn judge_constructors(alloc: Global, datas: &[Data]) -> Result<(), Unread>
    ensures { Judges result (are_free taken_constructors (flat_map (λ d. d.constructors) datas.now)) (λ _. Unit {0}) }
{
    let mut seen = Names::new(alloc);
    for data in datas {
        add_all(
            alloc,
            Kind::Constructor,
            &mut seen,
            data.constructors.as_slice(),
        )?;
    }
    Ok(())
}

// The names of the functions, which are few enough, free and distinct.
pub fn function_names(alloc: Global, functions: &[Function]) -> Result<Names, Unread>
    ensures { Judges result (fits_names (names_of functions.now)) (λ names. names ≡ names_of functions.now) }
{
    if functions.len() > MAX_FUNCTIONS {
        return Err(Unread::Refused(NotSpelled));
    }
    let mut names = Names::new(alloc);
    for function in functions {
        add_new(alloc, Kind::Function, &mut names, &function.name)?;
    }
    Ok(names)
}

// The constructors of `Bool`.
fn booleans(alloc: Global) -> Result<Names, OutOfMemory>
    ensures { IfOk result (λ names. names ≡ codes "False" ∷ codes "True" ∷ []) }
{
    let mut names = Names::new(alloc);
    names.add(Name::from_slice(alloc, b"False")?)?;
    names.add(Name::from_slice(alloc, b"True")?)?;
    Ok(names)
}

// The declaration of the type of this name.
fn declared<'a>(datas: &'a [Data], name: &Name) -> Option<&'a Data>
    ensures { option_copied result ≡ find (λ d. bytes_eq d.name name.now) datas.now }
{
    for data in datas {
        if data.name == *name {
            return Some(data);
        }
    }
    None
}

// The constructors of the type of this name.
pub fn constructors(alloc: Global, datas: &[Data], name: &Name) -> Result<Names, Unread>
    requires { fits_datas datas.now ≡ true }
    ensures { Gives (λ names. names) result (constructors_of datas.now name.now) }
{
    if name.as_slice() == b"Bool".as_slice() {
        return Ok(booleans(alloc)?);
    }
    let Some(data) = declared(datas, name) else {
        return Err(Unread::Refused(NotSpelled));
    };
    let mut all = Names::new(alloc);
    add_all(
        alloc,
        Kind::Constructor,
        &mut all,
        data.constructors.as_slice(),
    )?;
    Ok(all)
}
