// What is seen before a type.
ghost use Rattle.std.specs.Prelude.{◌≡◌, ◌<◌, [], IfOk, map, length, get_or};
ghost use Rattle.std.specs.List.{flat_map};
ghost use Rattle.rw_types_solving.specs.Types.{plains, apply};
ghost use Rattle.rw_types_rules.specs.WellTyped.{given};
ghost use Rattle.rw_types_shared.specs.Shared.{shown, node_at, type_at, AreBelow, IsProper, Extends};
ghost use Rattle.specialise_tables.specs.Fields.{seen_fields, world_with};
ghost use Rattle.specialise_tables.specs.Going.{IsOpened};

use crate::fields::Constructors;
use rw_base::OutOfMemory;
use rw_types_shared::{Node, Types};
use rw_types_solving::{Head, Term};
use specialise_types::field_types;
use std::alloc::Global;

// A copy of the node with this number.
fn node_of(alloc: Global, types: &Types, number: u32) -> Result<Node, OutOfMemory>
    ensures { IfOk result (λ node. shown node ≡ node_at types.now number) }
{
    match types.as_slice().get(number as usize) {
        Some(node) => Ok(Node {
            head: node.head,
            parts: Vec::from_slice(alloc, node.parts.as_slice())?,
        }),
        None => Ok(Node {
            head: Head::Tuple,
            parts: Vec::new(alloc),
        }),
    }
}

// The types of the fields of constructors at these arguments, one constructor after the other.
fn fields_at(
    alloc: Global,
    types: &mut Types,
    constructors: &[&[Term]],
    arguments: &[u32],
) -> Result<Vec<u32>, OutOfMemory>
    requires proper { IsProper types.old }
    requires arguments { AreBelow (length types.old) arguments.now }
    ensures proper { IfOk result (λ _. IsProper types.new) }
    ensures kept { IfOk result (λ _. Extends types.old types.new) }
    ensures within { IfOk result (λ made. AreBelow (length types.new) made.items) }
    ensures are { IfOk result (λ made. map (type_at types.new) made.items
        ≡ flat_map (λ takes. map (apply (given (map (type_at types.old) arguments.now))) takes) (map (λ fields. plains fields.now) constructors.now)) }
{
    let mut all = Vec::new(alloc);
    for fields in constructors {
        let made = field_types(alloc, types, fields, arguments)?;
        all.extend_from_slice(made.as_slice())?;
    }
    Ok(all)
}

// The types of the fields of the data type that is declared with this number, at these arguments.
fn fields_of(
    alloc: Global,
    fields: &[Constructors],
    types: &mut Types,
    n: u32,
    arguments: &[u32],
) -> Result<Vec<u32>, OutOfMemory>
    requires proper { IsProper types.old }
    requires arguments { AreBelow (length types.old) arguments.now }
    ensures proper { IfOk result (λ _. IsProper types.new) }
    ensures kept { IfOk result (λ _. Extends types.old types.new) }
    ensures within { IfOk result (λ made. AreBelow (length types.new) made.items) }
    ensures are { IfOk result (λ made. map (type_at types.new) made.items
        ≡ flat_map (λ takes. map (apply (given (map (type_at types.old) arguments.now))) takes) (get_or (seen_fields fields.now) n [])) }
{
    match fields.get(n as usize) {
        Some(made) => fields_at(alloc, types, made.fields.as_slice(), arguments),
        None => Ok(Vec::new(alloc)),
    }
}

// Whether a type is a data type, and what is seen before it.
#[derive(Drop)]
pub struct Opened {
    pub is_data: bool,
    pub parts: Vec<u32>,
}

// Of a data type the types of its fields, of another its parts.
pub fn open(
    alloc: Global,
    fields: &[Constructors],
    types: &mut Types,
    number: u32,
) -> Result<Opened, OutOfMemory>
    requires proper { IsProper types.old }
    requires within { number < length types.old }
    ensures proper { IfOk result (λ _. IsProper types.new) }
    ensures kept { IfOk result (λ _. Extends types.old types.new) }
    ensures within { IfOk result (λ made. AreBelow (length types.new) made.parts.items) }
    ensures opened { IfOk result (λ made. IsOpened (world_with (seen_fields fields.now)) made.is_data (type_at types.new number) (map (type_at types.new) made.parts.items)) }
{
    let node = node_of(alloc, types, number)?;
    match node.head {
        Head::Data(n) => {
            let parts = fields_of(alloc, fields, types, n, node.parts.as_slice())?;
            Ok(Opened {
                is_data: true,
                parts,
            })
        }
        Head::Tuple => Ok(Opened {
            is_data: true,
            parts: node.parts,
        }),
        _ => Ok(Opened {
            is_data: false,
            parts: node.parts,
        }),
    }
}
