//! The program `front_gallery`: it says whether the prelude's text spells the prelude's declarations, and then reads sources
//! from standard input, each up to an empty line, and writes what is found of each, or the rule that it breaks and where,
//! and then its first line. What is asked from there on is said by a line: `% tokens`, `% layout`, `% trees`, `% declarations`,
//! `% types` or `% check`, as `source.rt` has them.
//!
//! Each source goes through the stages of the front, as a source of the language does. What is written is compared with
//! answers that were worked out by hand. Begin with `source.rt`; `prelude.rt` is apart.
#![tactic(auto)]

mod nodes;
mod prelude;
mod shown;
mod source;
mod tokens;
mod tree;

use rw_base::Fail;
use source::Question;
use std::io::{self, ErrorKind, Input};

// Writes what is found of a source.
fn show(rt: &HostRuntime, question: Question, source: &str) -> io::Result<()> {
    let first = source.lines().next().unwrap_or("");
    match question.answer(rt.alloc(), source) {
        Ok(answer) => println!(rt; "{answer}"),
        Err(Fail::Refused(refusal)) => println!(rt;
            "{} {}:{}: {first}",
            refusal.rule.code(),
            refusal.place.line,
            refusal.place.column
        ),
        Err(Fail::OutOfMemory) => Err(io::Error::from(ErrorKind::OutOfMemory)),
    }
}

fn main(rt: HostRuntime) -> io::Result<()> {
    prelude::show(&rt)?;
    let alloc = rt.alloc();
    let mut question = Question::Declarations;
    let mut source = String::new(alloc);
    for line in rt.stdin().lines(alloc) {
        let line = line?;
        if let Some(other) = Question::asked_by(line.as_str()) {
            question = other;
        } else if line.is_empty() {
            show(&rt, question, source.as_str())?;
            source = String::new(alloc);
        } else {
            source.push_str(line.as_str())?;
            source.push('\n')?;
        }
    }
    Ok(())
}
