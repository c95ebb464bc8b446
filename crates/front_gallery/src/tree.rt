// Declarations as text: each node in parentheses, with what it is in front of its parts. Names stand alone. Places aren't
// shown, so that what is spelled elsewhere reads alike.

use crate::nodes::{push_clauses, push_name, push_names, push_type, push_types};
use rw_base::{Name, Span};
use rw_tree::{DataDecl, Decl, Side};
use std::alloc::{AllocError, Global};

// `(data T (a b) (C x y) ..)`
fn push_data(out: &mut String, made: &DataDecl) -> Result<(), AllocError> {
    out.push_str("(data ")?;
    push_name(out, &made.name)?;
    push_names(out, made.params.as_slice())?;
    for constructor in made.constructors.as_slice() {
        out.push_str(" (")?;
        push_name(out, &constructor.name)?;
        push_types(out, constructor.fields.as_slice())?;
        out.push(')')?;
    }
    out.push(')')
}

// `(infixl 5 (+ -))`
fn push_fixity(
    out: &mut String,
    side: Side,
    strength: u32,
    names: &[Name],
) -> Result<(), AllocError> {
    let keyword = match side {
        Side::Left => "infixl",
        Side::Right => "infixr",
        Side::Neither => "infix",
    };
    write!(out, "({keyword} {strength}")?;
    push_names(out, names)?;
    out.push(')')
}

fn push_declaration(out: &mut String, decl: &Decl<Span>) -> Result<(), AllocError> {
    match decl {
        Decl::Import(_, name) => {
            out.push_str("(import ")?;
            push_name(out, name)?;
            out.push(')')
        }
        Decl::Data(_, made) => push_data(out, made),
        Decl::Fixity(_, side, strength, names) => {
            push_fixity(out, *side, *strength, names.as_slice())
        }
        Decl::Sig(_, names, written) => {
            out.push_str("(::")?;
            push_names(out, names.as_slice())?;
            out.push(' ')?;
            push_type(out, written)?;
            out.push(')')
        }
        Decl::Fun(_, name, clauses) => {
            out.push_str("(= ")?;
            push_name(out, name)?;
            push_clauses(out, clauses.as_slice())?;
            out.push(')')
        }
    }
}

/// The declarations, each with a space between it and the next.
pub fn tree_of(alloc: Global, decls: &[Decl<Span>]) -> Result<String, AllocError> {
    let mut out = String::new(alloc);
    for (i, decl) in decls.iter().enumerate() {
        if i > 0 {
            out.push(' ')?;
        }
        push_declaration(&mut out, decl)?;
    }
    Ok(out)
}
