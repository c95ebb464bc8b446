// Declarations: numbered.
ghost use Rattle.std.specs.Prelude.{◌≡◌, ◌++◌, length, IfOk, OnOk};
ghost use Rattle.rw_tree.specs.Views.{itself};
ghost use Rattle.rw_tree.specs.Declarations.{declaration};
ghost use Rattle.rw_types_equations.specs.Seen.{seen_world};
ghost use Rattle.rw_types_numbering.specs.Slots.{declaration_slots};
ghost use Rattle.rw_types_numbering.specs.Numbering.{numbered_declaration};

use crate::clause::number_clauses;
use crate::label::plain_label;
use rw_base::OutOfMemory;
use rw_scope_rules::Bound;
use rw_tree::Decl;
use rw_tree_copies::{copied_data, copied_names, copied_type};
use rw_types_equations::{Numbered, World};
use rw_types_rules::VariableKind;
use sqlite_items::Items;
use std::alloc::Global;

// A declaration, whose numbers come after those of these kinds.
fn number_decl(
    alloc: Global,
    world: &World,
    tree: &Decl<Bound>,
    kinds: &mut Items<VariableKind>,
) -> Result<Decl<Numbered>, OutOfMemory>
    ensures tree { IfOk result (λ made. declaration itself made ≡ numbered_declaration (seen_world world.now) (length kinds.old) (declaration itself tree.now)) }
    ensures kinds { OnOk result (kinds.new ≡ kinds.old ++ declaration_slots (seen_world world.now) (declaration itself tree.now)) }
{
    match tree {
        Decl::Import(at, name) => {
            let at = plain_label(*at, kinds)?;
            Ok(Decl::Import(at, name.copied(alloc)?))
        }
        Decl::Data(at, made) => {
            let at = plain_label(*at, kinds)?;
            Ok(Decl::Data(at, copied_data(alloc, made)?))
        }
        Decl::Fixity(at, side, strength, names) => {
            let at = plain_label(*at, kinds)?;
            let names = copied_names(alloc, names.as_slice())?;
            Ok(Decl::Fixity(at, *side, *strength, names))
        }
        Decl::Sig(at, names, written) => {
            let at = plain_label(*at, kinds)?;
            let names = copied_names(alloc, names.as_slice())?;
            Ok(Decl::Sig(at, names, copied_type(alloc, written)?))
        }
        Decl::Fun(at, name, clauses) => {
            let at = plain_label(*at, kinds)?;
            let name = name.copied(alloc)?;
            let clauses = number_clauses(alloc, world, clauses.as_slice(), kinds)?;
            Ok(Decl::Fun(at, name, clauses))
        }
    }
}

/// The declaration with a number at each node, from 0: its own label first, then the nodes of its clauses, each before its
/// parts, and these from left to right (Haskell 2010 Report, chapters 3 and 4). A node's number is that of its type, and the
/// numbers after it are those of the arguments of its instance. The list has the kind of each number. It takes time in
/// proportion to the nodes and their arguments. A node whose number would be 2^32 or more counts as want of memory.
pub fn number_declaration(
    alloc: Global,
    tree: &Decl<Bound>,
    world: &World,
) -> Result<(Decl<Numbered>, Items<VariableKind>), OutOfMemory>
    ensures numbered { IfOk result (λ made. declaration itself made.0 ≡ numbered_declaration (seen_world world.now) 0 (declaration itself tree.now)) }
    ensures slots { IfOk result (λ made. made.1 ≡ declaration_slots (seen_world world.now) (declaration itself tree.now)) }
{
    let mut kinds = Items::new(alloc);
    let made = number_decl(alloc, world, tree, &mut kinds)?;
    Ok((made, kinds))
}
