// Sources as programs whose names are bound.

use rw_base::Fail;
use rw_scope_binding::bind;
use rw_scope_rules::Bound;
use rw_tree::Program;
use scope_tests::program_of;
use std::alloc::Global;

/// The program of a source of at most 256 KB, with its names bound, behind no prelude.
pub fn bound_of(alloc: Global, source: &[u8]) -> Result<Program<Bound>, Fail> {
    Ok(bind(alloc, &program_of(alloc, source)?)?)
}
