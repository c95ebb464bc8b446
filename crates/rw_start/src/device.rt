// Whether a type as written is that of a whole device, `ReT i o I ()` (Haskell 2010 Report, section 4.1.2).
ghost use Rattle.std.specs.Prelude.{◌≡◌, ◌++◌, IfOk, OnOk, map, codes};
ghost use Rattle.rw_tree.specs.Types.{written, writtens, type_parts, constructor_type};
ghost use Rattle.rw_start.specs.Device.{head_of, arguments_of, is_closed_data as is_closed, are_closed_data as are_closed, is_constructor as is_named, is_unit as is_nothing, are_of_device as make_device, is_device as is_of_device};
ghost use Rattle.rw_start.specs.Seen.{seen_types};

use rw_base::{Name, OutOfMemory};
use rw_tree::Written;
use std::alloc::Global;

// Whether a constructor of types is none of the monads.
fn is_data(name: &Name) -> bool
    ensures { result ≡ is_closed (constructor_type name.now) }
{
    !name.is(b"I") && !name.is(b"ReT") && !name.is(b"StateT")
}

// Whether no type variable, no arrow and no monad stands in a type.
#[cycle(closed)]
fn is_closed_data(ty: &Written) -> bool
    ensures { result ≡ is_closed (written ty.now) }
{
    match ty {
        Written::Var(_) => false,
        Written::Con(name) => is_data(name),
        Written::Apply(head, parts) => {
            is_closed_data(head.get()) && are_closed_data(parts.as_slice())
        }
        Written::Fun(_, _) => false,
        Written::Tuple(parts) => are_closed_data(parts.as_slice()),
    }
}

#[cycle(closed)]
fn are_closed_data(types: &[Written]) -> bool
    ensures { result ≡ are_closed (type_parts (writtens types.now)) }
{
    for ty in types {
        if !is_closed_data(ty) {
            return false;
        }
    }
    true
}

// Takes off the arguments of a type, and gives what is left.
fn take_apart<'a>(
    ty: &'a Written,
    arguments: &mut Vec<&'a Written>,
) -> Result<&'a Written, OutOfMemory>
    ensures head { IfOk result (λ head. written head.now ≡ head_of (written ty.now)) }
    ensures arguments { OnOk result (seen_types arguments.new.items ≡ seen_types arguments.old.items ++ arguments_of (written ty.now)) }
{
    match ty {
        Written::Apply(head, parts) => {
            let top = take_apart(head.get(), arguments)?;
            push_all(parts.as_slice(), arguments)?;
            Ok(top)
        }
        _ => Ok(ty),
    }
}

// Appends these types.
fn push_all<'a>(parts: &'a [Written], arguments: &mut Vec<&'a Written>) -> Result<(), OutOfMemory>
    ensures { OnOk result (seen_types arguments.new.items ≡ seen_types arguments.old.items ++ map written parts.now) }
{
    for part in parts {
        arguments.push(part)?;
    }
    Ok(())
}

// Whether a type is the constructor of types with this name.
fn is_constructor(ty: &Written, name: &[u8]) -> bool
    ensures { result ≡ is_named name.now (written ty.now) }
{
    match ty {
        Written::Con(found) => found.is(name),
        _ => false,
    }
}

fn is_unit(ty: &Written) -> bool
    ensures { result ≡ is_nothing (written ty.now) }
{
    match ty {
        Written::Tuple(parts) => parts.is_empty(),
        _ => false,
    }
}

// Whether these are the arguments of `ReT`.
fn are_of_device(arguments: &[&Written]) -> bool
    ensures { result ≡ make_device (seen_types arguments.now) }
{
    match arguments {
        [i, o, m, a] => {
            is_closed_data(i) && is_closed_data(o) && is_constructor(m, b"I") && is_unit(a)
        }
        _ => false,
    }
}

// Whether a type is `ReT i o I ()` with closed data i and o.
pub fn is_device(alloc: Global, ty: &Written) -> Result<bool, OutOfMemory>
    ensures { IfOk result (λ is. is ≡ is_of_device (written ty.now)) }
{
    let mut arguments = Vec::new(alloc);
    let head = take_apart(ty, &mut arguments)?;
    Ok(is_constructor(head, b"ReT") && are_of_device(arguments.as_slice()))
}
