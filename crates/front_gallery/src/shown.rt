// Types as text: each head in front of its parts, in parentheses. A table of types has each part before what it is a part of, so
// texts are made in the order of the table.

use crate::nodes::push_name;
use rw_base::Span;
use rw_tree::Decl;
use rw_types::TypedDecl;
use rw_types_shared::Node;
use rw_types_solving::Head;
use std::alloc::{AllocError, Global};

// The name of the data type with this number.
fn push_data(out: &mut String, number: u32, decls: &[Decl<Span>]) -> Result<(), AllocError> {
    match decls.get(number as usize) {
        Some(Decl::Data(_, made)) => push_name(out, &made.name),
        _ => out.push('?'),
    }
}

// What stands in front of the parts of a type.
fn push_head(out: &mut String, head: Head, decls: &[Decl<Span>]) -> Result<(), AllocError> {
    match head {
        Head::Tuple => out.push_str("()"),
        Head::Fun => out.push_str("->"),
        Head::Data(number) => push_data(out, number, decls),
        Head::Comp => out.push_str("of"),
        Head::I => out.push('I'),
        Head::Layer => out.push_str("over"),
        Head::StateT => out.push_str("StateT"),
        Head::ReT => out.push_str("ReT"),
        Head::Unknown(number) => write!(out, "u{number}"),
    }
}

// The texts of the types with these numbers, each behind a blank.
fn push_texts(out: &mut String, numbers: &[u32], texts: &[String]) -> Result<(), AllocError> {
    for number in numbers {
        out.push(' ')?;
        match texts.get(*number as usize) {
            Some(text) => out.push_str(text)?,
            None => out.push('?')?,
        }
    }
    Ok(())
}

// The text of a node, where its parts have theirs.
fn text_of(
    alloc: Global,
    node: &Node,
    texts: &[String],
    decls: &[Decl<Span>],
) -> Result<String, AllocError> {
    let mut out = String::new(alloc);
    let many = !node.parts.is_empty();
    if many {
        out.push('(')?;
    }
    push_head(&mut out, node.head, decls)?;
    push_texts(&mut out, node.parts.as_slice(), texts)?;
    if many {
        out.push(')')?;
    }
    Ok(out)
}

// The texts of the nodes of a table.
fn texts_of(
    alloc: Global,
    nodes: &[Node],
    decls: &[Decl<Span>],
) -> Result<Vec<String>, AllocError> {
    let mut texts = Vec::new(alloc);
    for node in nodes {
        let text = text_of(alloc, node, texts.as_slice(), decls)?;
        texts.push(text)?;
    }
    Ok(texts)
}

/// The types of the numbers of the last declaration, by number.
pub fn show_last(
    alloc: Global,
    typed: &[TypedDecl],
    decls: &[Decl<Span>],
) -> Result<String, AllocError> {
    let mut out = String::new(alloc);
    out.push_str("ok")?;
    match typed.last() {
        Some(last) => {
            let texts = texts_of(alloc, last.nodes.as_slice(), decls)?;
            push_texts(&mut out, last.types.as_slice(), texts.as_slice())?;
        }
        None => {}
    }
    Ok(out)
}
