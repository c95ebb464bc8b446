// Whether the prelude's text spells the declarations that stand before every source.

use crate::source::program_of;
use crate::tree::tree_of;
use rw_base::Fail;
use rw_front::prelude;
use rw_prelude::prelude_decls;
use std::alloc::Global;
use std::io::{self, ErrorKind};

// How many declarations the text has, how many the prelude has, and whether they read alike.
#[derive(Clone, Copy)]
struct Found {
    spelled: usize,
    wanted: usize,
    alike: bool,
}

fn compare(alloc: Global, source: &[u8]) -> Result<Found, Fail> {
    let spelled = program_of(alloc, source)?;
    let wanted = prelude_decls(alloc)?;
    let text = tree_of(alloc, spelled.decls.as_slice())?;
    let alike = text.as_str() == tree_of(alloc, wanted.as_slice())?.as_str();
    Ok(Found {
        spelled: spelled.decls.len(),
        wanted: wanted.len(),
        alike,
    })
}

/// Writes how many declarations the text has, how many the prelude has, and whether they are the same but for their places.
pub fn show(rt: &HostRuntime) -> io::Result<()> {
    match compare(rt.alloc(), prelude()) {
        Ok(found) => println!(rt;
            "{} declarations of the text, {} of the prelude: {}",
            found.spelled,
            found.wanted,
            if found.alike {
                "the same"
            } else {
                "not the same"
            }
        ),
        Err(Fail::Refused(refusal)) => println!(rt;
            "{} {}:{}",
            refusal.rule.code(),
            refusal.place.line,
            refusal.place.column
        ),
        Err(Fail::OutOfMemory) => Err(io::Error::from(ErrorKind::OutOfMemory)),
    }
}
