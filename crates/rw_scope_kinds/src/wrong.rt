// E10: types of a wrong kind (Haskell 2010 Report, section 4.6), in fields and in signatures.
ghost use Rattle.std.specs.Prelude.{◌≡◌, ◌++◌, IfOk, OnOk, map, flat_map};
ghost use Rattle.std.specs.List.{list_all};
ghost use Rattle.rw_tree.specs.Views.{itself};
ghost use Rattle.rw_tree.specs.Types.{written, writtens};
ghost use Rattle.rw_tree.specs.Declarations.{declaration, plain_constructor, plain_program};
ghost use Rattle.rw_scope_rules.specs.Scope.{fields_of};
ghost use Rattle.rw_scope_rules.specs.Kinds.{misused as misused_of};
ghost use Rattle.rw_scope_nodes.specs.Plain.{plain_node};
ghost use Rattle.rw_scope_kinds.specs.Contexts.{fits_field, fits_signature, wrong_in_declaration, wrong_in_node};

use crate::uses::{all_agree, all_plain};
use crate::variables::has_variable;
use rw_base::{OutOfMemory, Place, Span};
use rw_scope_nodes::{Node, nodes};
use rw_scope_uses::{Context, add_uses, of_fields, of_signatures};
use rw_tree::{Constructor, Decl, Local, Program, Written};
use std::alloc::Global;

// Whether the type of a signature is of a right kind, and its variables are used at kinds that agree.
fn signature_fits(alloc: Global, context: &Context, ty: &Written) -> Result<bool, OutOfMemory>
    ensures { IfOk result (λ fits. fits ≡ fits_signature context.now (written ty.now)) }
{
    let mut uses = Vec::new(alloc);
    if !add_uses(context, ty, &mut uses)? {
        return Ok(false);
    }
    all_agree(alloc, uses.as_slice())
}

// Whether the type of a field is of a right kind, and its variables are types.
fn field_fits(alloc: Global, context: &Context, ty: &Written) -> Result<bool, OutOfMemory>
    ensures { IfOk result (λ fits. fits ≡ fits_field context.now (written ty.now)) }
{
    let mut uses = Vec::new(alloc);
    if !add_uses(context, ty, &mut uses)? {
        return Ok(false);
    }
    Ok(all_plain(uses.as_slice()))
}

// Whether all fields of a constructor are.
fn fields_fit(alloc: Global, context: &Context, fields: &[Written]) -> Result<bool, OutOfMemory>
    ensures { IfOk result (λ fit. fit ≡ list_all (fits_field context.now) (writtens fields.now)) }
{
    for ty in fields {
        if !field_fits(alloc, context, ty)? {
            return Ok(false);
        }
    }
    Ok(true)
}

// Whether all fields of a data type are.
fn constructors_fit(
    alloc: Global,
    context: &Context,
    constructors: &[Constructor],
) -> Result<bool, OutOfMemory>
    ensures { IfOk result (λ fit. fit ≡ list_all (fits_field context.now) (fields_of (map plain_constructor constructors.now))) }
{
    for constructor in constructors {
        if !fields_fit(alloc, context, constructor.fields.as_slice())? {
            return Ok(false);
        }
    }
    Ok(true)
}

// The place of a declaration whose types are wrong.
fn in_declaration(
    alloc: Global,
    fields: &Context,
    signatures: &Context,
    decl: &Decl<Span>,
    places: &mut Vec<Place>,
) -> Result<(), OutOfMemory>
    ensures { OnOk result (places.new.items ≡ places.old.items ++ wrong_in_declaration (fits_field fields.now) (fits_signature signatures.now) (declaration itself decl.now)) }
{
    match decl {
        Decl::Data(at, made) => {
            if !constructors_fit(alloc, fields, made.constructors.as_slice())? {
                places.push(at.first)?;
            }
            Ok(())
        }
        Decl::Sig(at, _, ty) => {
            if !signature_fits(alloc, signatures, ty)? {
                places.push(at.first)?;
            }
            Ok(())
        }
        _ => Ok(()),
    }
}

// The places of the declarations whose types are wrong.
fn in_declarations(
    alloc: Global,
    fields: &Context,
    signatures: &Context,
    decls: &[Decl<Span>],
    places: &mut Vec<Place>,
) -> Result<(), OutOfMemory>
    ensures { OnOk result (places.new.items ≡ places.old.items ++ flat_map (wrong_in_declaration (fits_field fields.now) (fits_signature signatures.now)) (map (declaration itself) decls.now)) }
{
    for decl in decls {
        in_declaration(alloc, fields, signatures, decl, places)?;
    }
    Ok(())
}

// The place of a local signature whose type is wrong: it has a variable, or doesn't fit.
fn in_node(
    alloc: Global,
    signatures: &Context,
    node: &Node<'_, Span>,
    places: &mut Vec<Place>,
) -> Result<(), OutOfMemory>
    ensures { OnOk result (places.new.items ≡ places.old.items ++ wrong_in_node (fits_signature signatures.now) (plain_node node.now)) }
{
    if let Node::Binding(Local::Sig(at, _, ty)) = node {
        if has_variable(ty) || !signature_fits(alloc, signatures, ty)? {
            places.push(at.first)?;
        }
    }
    Ok(())
}

/// The places of the types of a wrong kind: of data types with a field that isn't made of data types and of their variables
/// as types, of signatures whose type isn't of a right kind at top level, and of local signatures whose type isn't or has a
/// variable; first those at top level, then those in functions, in the order of the program.
pub fn misused(alloc: Global, program: &Program<Span>) -> Result<Vec<Place>, OutOfMemory>
    ensures { IfOk result (λ places. places.items ≡ misused_of (plain_program itself program.now)) }
{
    let decls = program.decls.as_slice();
    let fields = of_fields(alloc, decls)?;
    let signatures = of_signatures(alloc, decls)?;
    let mut places = Vec::new(alloc);
    in_declarations(alloc, &fields, &signatures, decls, &mut places)?;
    let found = nodes(alloc, program)?;
    for node in found.as_slice() {
        in_node(alloc, &signatures, node, &mut places)?;
    }
    Ok(places)
}
