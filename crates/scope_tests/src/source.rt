// Sources as programs.

use rw_base::{Fail, Span};
use rw_layout::lay_out;
use rw_lex::lex;
use rw_parser::parse;
use rw_tree::Program;
use std::alloc::Global;

/// The program of a source of at most 256 KB.
pub fn program_of(alloc: Global, source: &[u8]) -> Result<Program<Span>, Fail> {
    if source.len() > 262144 {
        return Err(Fail::OutOfMemory);
    }
    let tokens = lex(alloc, source)?;
    let filled = lay_out(alloc, &tokens)?;
    parse(alloc, &filled)
}
