// Levels of trees, counted within the bound of 512.
ghost use Rattle.std.specs.Prelude.{◌≡◌, ◌≤◌, ◌+◌, suc, min};
ghost use Rattle.rw_base.specs.Answers.{Gives};
ghost use Rattle.rw_parser_chains.specs.Grouping as spec;
ghost use Rattle.rw_parser_chains.specs.Resolving as size;
ghost use Rattle.rw_parser_chains.specs.Sizes.{pattern_size, patterns_size, type_size, types_size, data_size};

use crate::{Broken, Unresolved};
use rw_base::Span;
use rw_tree::{DataDecl, Pat, Written};

/// A tree has so many levels at most.
pub const MAX_LEVELS: usize = 512;

/// The level above these.
#[tactic(auto, unfolding(crate::specs::Grouping::above))]
pub fn above(levels: usize) -> Result<usize, Unresolved>
    ensures { Gives (λ n. n) result (spec.above levels) }
{
    if levels < MAX_LEVELS {
        Ok(levels + 1)
    } else {
        Err(Unresolved::Refused(Broken))
    }
}

/// So many, where the bound allows them.
#[tactic(auto, unfolding(crate::specs::Resolving::fits))]
pub fn fits(levels: usize) -> Result<usize, Unresolved>
    ensures { Gives (λ n. n) result (size.fits levels) }
{
    if levels <= MAX_LEVELS {
        Ok(levels)
    } else {
        Err(Unresolved::Refused(Broken))
    }
}

/// What stands below so many others, one below the other.
#[tactic(auto, unfolding(crate::specs::Resolving::fits))]
pub fn below(others: usize, levels: usize) -> Result<usize, Unresolved>
    ensures { Gives (λ n. n) result (size.fits (suc others + levels)) }
{
    if others >= MAX_LEVELS || levels >= MAX_LEVELS {
        return Err(Unresolved::Refused(Broken));
    }
    fits(others + 1 + levels)
}

// The level above these, which stays where it is above the bound.
fn capped(levels: usize) -> usize
    requires { levels ≤ 513 }
    ensures { result ≡ min 513 (levels + 1) }
{
    if levels <= MAX_LEVELS {
        levels + 1
    } else {
        levels
    }
}

// The levels of a pattern, 513 where it has more than 512.
#[cycle(patterns)]
#[tactic(auto, using(crate::proofs::Counts::pattern_counts))]
fn pattern_levels(pat: &Pat<Span>) -> usize
    ensures { result ≡ min 513 (pattern_size pat.now) }
{
    match pat {
        Pat::Wild(_) | Pat::Var(_, _) => 1,
        Pat::Con(_, _, parts) => capped(patterns_levels(parts.as_slice())),
        Pat::Tuple(_, parts) => capped(patterns_levels(parts.as_slice())),
    }
}

// The greatest of patterns beside one another.
#[cycle(patterns)]
fn patterns_levels(pats: &[Pat<Span>]) -> usize
    ensures { result ≡ min 513 (patterns_size pats.now) }
{
    let mut levels = 0;
    for pat in pats {
        levels = levels.max(pattern_levels(pat));
    }
    levels
}

/// The levels of a type, 513 where it has more than 512.
#[cycle(types)]
#[tactic(auto, using(crate::proofs::Counts::type_counts))]
pub fn type_levels(written: &Written) -> usize
    ensures { result ≡ min 513 (type_size written.now) }
{
    match written {
        Written::Var(_) | Written::Con(_) => 1,
        Written::Apply(head, parts) => {
            capped(type_levels(head.get()).max(types_levels(parts.as_slice())))
        }
        Written::Fun(from, to) => capped(type_levels(from.get()).max(type_levels(to.get()))),
        Written::Tuple(parts) => capped(types_levels(parts.as_slice())),
    }
}

// The greatest of types beside one another.
#[cycle(types)]
fn types_levels(types: &[Written]) -> usize
    ensures { result ≡ min 513 (types_size types.now) }
{
    let mut levels = 0;
    for written in types {
        levels = levels.max(type_levels(written));
    }
    levels
}

/// The levels of a pattern, where the bound allows them.
#[tactic(auto, unfolding(crate::specs::Resolving::fits, crate::specs::Resolving::pattern_fits))]
pub fn pattern_fits(pat: &Pat<Span>) -> Result<usize, Unresolved>
    ensures { Gives (λ n. n) result (size.pattern_fits pat.now) }
{
    fits(pattern_levels(pat))
}

/// The same of patterns beside one another.
#[tactic(auto, unfolding(crate::specs::Resolving::fits, crate::specs::Resolving::patterns_fit))]
pub fn patterns_fit(pats: &[Pat<Span>]) -> Result<usize, Unresolved>
    ensures { Gives (λ n. n) result (size.patterns_fit pats.now) }
{
    fits(patterns_levels(pats))
}

/// The same of a type.
#[tactic(auto, unfolding(crate::specs::Resolving::fits, crate::specs::Resolving::type_fits))]
pub fn type_fits(written: &Written) -> Result<usize, Unresolved>
    ensures { Gives (λ n. n) result (size.type_fits written.now) }
{
    fits(type_levels(written))
}

/// The greatest of the fields of a data type, 513 where it has more than 512.
pub fn data_levels(made: &DataDecl) -> usize
    ensures { result ≡ min 513 (data_size made.now) }
{
    let mut levels = 0;
    for constructor in made.constructors.as_slice() {
        levels = levels.max(types_levels(constructor.fields.as_slice()));
    }
    levels
}
