// Uses of type variables: whether the kinds at which a variable stands agree.
ghost use Rattle.std.specs.Prelude.{◌≡◌, ◌∷◌, ◌++◌, [], IfOk, OnOk};
ghost use Rattle.std.specs.List.{list_all};
ghost use Rattle.rw_tree.specs.declared.types.Kind.TheVariants.{Plain};
ghost use Rattle.rw_scope_rules.specs.Names.{Bytes, first_named};
ghost use Rattle.rw_scope_rules.specs.Kinds.{kinds_agree};
ghost use Rattle.rw_scope_uses.specs.Spine.{plain_use, plain_uses};
ghost use Rattle.rw_scope_kinds.specs.Agreeing.{agree_after, agrees_with};

use rw_base::OutOfMemory;
use rw_scope_uses::{Table, Use};
use rw_tree::Kind;
use std::alloc::Global;

// Whether a variable may stand at both kinds: a monad and a state monad agree.
fn agree(one: Kind, other: Kind) -> bool
    ensures { result ≡ kinds_agree one other }
{
    match (one, other) {
        (Kind::Plain, Kind::Plain) => true,
        (Kind::Plain, _) => false,
        (_, Kind::Plain) => false,
        _ => true,
    }
}

// Whether a use agrees with the first one of its variable, which it is if there was none.
fn agrees(alloc: Global, firsts: &mut Table<Kind>, one: &Use<'_>) -> Result<bool, OutOfMemory>
    ensures agrees { IfOk result (λ agrees. agrees ≡ agrees_with (first_named one.now.name.now firsts.old) one.now.kind) }
    ensures firsts { OnOk result ((x : Bytes) → first_named x firsts.new ≡ first_named x (firsts.old ++ plain_use one.now ∷ [])) }
{
    match firsts.find(one.name) {
        Some(first) => Ok(agree(*first, one.kind)),
        None => {
            firsts.add(one.name.copied(alloc)?, one.kind)?;
            Ok(true)
        }
    }
}

// Whether each use agrees with the first one of its variable.
pub fn all_agree(alloc: Global, uses: &[Use<'_>]) -> Result<bool, OutOfMemory>
    ensures { IfOk result (λ all. all ≡ agree_after [] (plain_uses uses.now)) }
{
    let mut firsts = Table::new(alloc);
    for one in uses {
        if !agrees(alloc, &mut firsts, one)? {
            return Ok(false);
        }
    }
    Ok(true)
}

// Whether each use is as a type.
pub fn all_plain(uses: &[Use<'_>]) -> bool
    ensures { result ≡ list_all (λ u. kinds_agree u.1 Plain) (plain_uses uses.now) }
{
    for one in uses {
        if !agree(one.kind, Kind::Plain) {
            return false;
        }
    }
    true
}
