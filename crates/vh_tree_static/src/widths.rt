// V5: widths agree.
ghost use Rattle.std.specs.Prelude.{◌≡◌, ◌+◌, ◌-◌, ◌&&◌, ◌∷◌, false, List, IfOk, IfErr, Some, map};
ghost use Rattle.std.specs.List.{list_all};
ghost use Rattle.vh_tree.specs.StaticRules.{Width, all_agree, joined_width, measured, sum_widths, width_of_name};
ghost use Rattle.vh_tree.specs.StaticRules as rules;
ghost use Rattle.vh_tree_static.specs.Measures.{Fits, Measures, capped, widths_over};
ghost use Rattle.rw_base_tables.specs.Tables.{known_in};

use crate::table::get;
use rw_base_tables::Table;
use sqlite_items::Items;
use vh_tree::{Ident, VExpr};

const MAX_WIDTH: u64 = 1 << 30;

// A function to those declared behind it: the widths of its parameters and of its result.
#[derive(Drop)]
pub struct Callee {
    pub params: Items<u32>,
    pub result: Option<u64>,
}

// Widths don't agree.
#[derive(Clone, Copy)]
pub enum Misfit {
    Misfit,
}

// The width of a name that stands alone.
fn name_width(vars: &Table<u32>, callees: &Table<Callee>, name: &Ident) -> Option<u64>
    ensures { let ws = widths_over (known_in vars.now) callees.now in result ≡ width_of_name (ws.named name.now) (ws.known name.now) }
{
    if let Some(width) = get(vars, name) {
        return Some(*width as u64);
    }
    get(callees, name)?.result
}

// The width of a part of a name of this width.
fn slice_width(whole: Option<u32>, high: u32, low: u32) -> Result<Option<u64>, Misfit>
    ensures { Measures result (record { width = Some (high + 1 - low); fits = rules.slice_lies whole high low }) }
{
    if let Some(whole) = whole {
        if high >= whole || low > high {
            return Err(Misfit::Misfit);
        }
    }
    Ok(Some((high as u64 + 1).saturating_sub(low as u64)))
}

// Whether two widths agree.
pub fn agree(a: Option<u64>, b: Option<u64>) -> bool
    ensures { result ≡ rules.agree a b }
{
    match (a, b) {
        (Some(a), Some(b)) => a == b,
        _ => true,
    }
}

// The sum of two widths, at most the greatest number.
fn sum(a: Option<u64>, b: Option<u64>) -> Option<u64>
    ensures { result ≡ capped (sum_widths a b) }
{
    match (a, b) {
        (Some(a), Some(b)) => Some(a.saturating_add(b)),
        _ => None,
    }
}

// The width of a join, by the sum of the widths of its parts.
fn join_width(total: Option<u64>) -> Result<Option<u64>, Misfit>
    ensures { (whole : rules.Width) → total ≡ capped whole → Measures result (record { width = whole; fits = rules.is_within whole }) }
{
    match total {
        Some(total) if total > MAX_WIDTH => Err(Misfit::Misfit),
        total => Ok(total),
    }
}

// The parameters behind the first of these, if there is any, with whose width this one agrees.
fn behind(width: Option<u64>, params: &[u32]) -> Result<&[u32], Misfit>
    ensures passes { IfOk result (λ rest. (ns : List Width) → all_agree (width ∷ ns) params.now ≡ all_agree ns rest.now) }
    ensures stops { IfErr result (λ _. (ns : List Width) → all_agree (width ∷ ns) params.now ≡ false) }
{
    match params {
        [] => Ok(params),
        [param, more @ ..] => {
            if agree(width, Some(*param as u64)) {
                Ok(more)
            } else {
                Err(Misfit::Misfit)
            }
        }
    }
}

// The width of an expression in which widths agree.
#[cycle(expr)]
pub fn measure(
    vars: &Table<u32>,
    callees: &Table<Callee>,
    expr: &VExpr,
) -> Result<Option<u64>, Misfit>
    ensures { Measures result (measured (widths_over (known_in vars.now) callees.now) expr.now) }
{
    match expr {
        VExpr::Name(name) => Ok(name_width(vars, callees, name)),
        VExpr::Slice(name, high, low) => slice_width(get(vars, name).copied(), *high, *low),
        VExpr::Literal(bits) => Ok(Some(bits.as_slice().len() as u64)),
        VExpr::Call(name, arguments) => match get(callees, name) {
            Some(callee) => {
                let params = callee.params.as_slice();
                arguments_fit(vars, callees, params, arguments.as_slice())?;
                Ok(callee.result)
            }
            None => {
                each_fits(vars, callees, arguments.as_slice())?;
                Ok(None)
            }
        },
        VExpr::Join(parts) => join_width(parts_width(vars, callees, parts.as_slice())?),
    }
}

// Arguments agree with parameters of these widths, as far as both go.
#[cycle(expr)]
fn arguments_fit(
    vars: &Table<u32>,
    callees: &Table<Callee>,
    params: &[u32],
    arguments: &[VExpr],
) -> Result<(), Misfit>
    ensures { let ms = map (measured (widths_over (known_in vars.now) callees.now)) arguments.now in
        Fits result (list_all (λ m. m.fits) ms && all_agree (map (λ m. m.width) ms) params.now) }
{
    let mut left = params;
    for argument in arguments {
        left = behind(measure(vars, callees, argument)?, left)?;
    }
    Ok(())
}

// Widths agree in each of these expressions.
#[cycle(expr)]
fn each_fits(vars: &Table<u32>, callees: &Table<Callee>, parts: &[VExpr]) -> Result<(), Misfit>
    ensures { Fits result (list_all (λ m. m.fits) (map (measured (widths_over (known_in vars.now) callees.now)) parts.now)) }
{
    for part in parts {
        measure(vars, callees, part)?;
    }
    Ok(())
}

// The sum of the widths of these parts, at most the greatest number.
#[cycle(expr)]
fn parts_width(
    vars: &Table<u32>,
    callees: &Table<Callee>,
    parts: &[VExpr],
) -> Result<Option<u64>, Misfit>
    ensures { let ms = map (measured (widths_over (known_in vars.now) callees.now)) parts.now in
        Measures result (record { width = capped (joined_width (map (λ m. m.width) ms)); fits = list_all (λ m. m.fits) ms }) }
{
    let mut total = Some(0);
    for part in parts {
        total = sum(total, measure(vars, callees, part)?);
    }
    Ok(total)
}
