// Solving the equations of a declaration.
ghost use Rattle.std.specs.Prelude.{◌≡◌, ◌↔◌, ◌<◌, ℕ, IfOk, Err, length};
ghost use Rattle.rw_types_solving.specs.Types.{Ty, var, plain, plains};
ghost use Rattle.rw_types_solving.specs.Tables.{equations as equations_of, Solves, Small, Narrowed, NoneWithin, IsTable};
ghost use Rattle.rw_types_rules.specs.Words.{functions};
ghost use Rattle.rw_types_equations.specs.Equations.{Holds, told};
ghost use Rattle.rw_base.specs.declared.fail.Failure.TheVariants as fail;

use crate::Equation;
use crate::shape::function_from;
use rw_types_solving::{NoSolution, Table, Term, Unsolved, top};
use std::alloc::Global;

// The most nodes of a type: a function of more types has more.
const MOST: usize = 1024;

// The variable is this type as well. One that the table does not have counts as want of memory.
fn solve_type(alloc: Global, table: &mut Table, variable: u32, is: &Term) -> Result<(), Unsolved>
    requires { IsTable (equations_of table.old) }
    ensures table { IfOk result (λ _. IsTable (equations_of table.new)) }
    ensures as_many { IfOk result (λ _. length table.new ≡ length table.old) }
    ensures narrowed { IfOk result (λ _. Narrowed (equations_of table.old) (equations_of table.new) (var variable) (plain is.now)) }
    ensures within { result ≡ Err (fail.Refused (record {})) → variable < length table.old }
    ensures refused { result ≡ Err (fail.Refused (record {})) → NoneWithin (equations_of table.old) (var variable) (plain is.now) }
{
    let variables = table.len() as u64;
    if variable as u64 >= variables || top(is) > variables {
        return Err(Unsolved::OutOfMemory);
    }
    table.equate(alloc, &Term::Var(variable), is)
}

// The variable is a function of these types to this one as well. One that the table does not have counts as want of memory.
fn solve_function(
    alloc: Global,
    table: &mut Table,
    variable: u32,
    takes: &[Term],
    is: &Term,
) -> Result<(), Unsolved>
    requires { IsTable (equations_of table.old) }
    ensures table { IfOk result (λ _. IsTable (equations_of table.new)) }
    ensures as_many { IfOk result (λ _. length table.new ≡ length table.old) }
    ensures narrowed { IfOk result (λ _. Narrowed (equations_of table.old) (equations_of table.new) (var variable) (functions (plains takes.now) (plain is.now))) }
    ensures within { result ≡ Err (fail.Refused (record {})) → variable < length table.old }
    ensures refused { result ≡ Err (fail.Refused (record {})) → NoneWithin (equations_of table.old) (var variable) (functions (plains takes.now) (plain is.now)) }
{
    if variable as usize >= table.len() {
        return Err(Unsolved::OutOfMemory);
    }
    if takes.len() > MOST {
        return Err(Unsolved::Refused(NoSolution));
    }
    let whole = function_from(alloc, takes, is)?;
    solve_type(alloc, table, variable, &whole)
}

// One equation more. One of a variable that the table does not have counts as want of memory.
fn solve_one(alloc: Global, table: &mut Table, equation: &Equation) -> Result<(), Unsolved>
    requires { IsTable (equations_of table.old) }
    ensures table { IfOk result (λ _. IsTable (equations_of table.new)) }
    ensures as_many { IfOk result (λ _. length table.new ≡ length table.old) }
    ensures narrowed { IfOk result (λ _. Narrowed (equations_of table.old) (equations_of table.new) (var equation.now.variable) (told equation.now)) }
    ensures within { result ≡ Err (fail.Refused (record {})) → equation.now.variable < length table.old }
    ensures refused { result ≡ Err (fail.Refused (record {})) → NoneWithin (equations_of table.old) (var equation.now.variable) (told equation.now) }
{
    match &equation.takes {
        None => solve_type(alloc, table, equation.variable, &equation.is),
        Some(takes) => solve_function(
            alloc,
            table,
            equation.variable,
            takes.as_slice(),
            &equation.is,
        ),
    }
}

/// A table of so many variables whose solutions are the assignments under which the equations hold. Refused only where they
/// hold under no assignment of types of at most 1,024 nodes. An equation of a variable that is none of them counts as
/// want of memory.
pub fn solve_equations(
    alloc: Global,
    equations: &[Equation],
    variables: u32,
) -> Result<Table, Unsolved>
    ensures table { IfOk result (λ made. IsTable (equations_of made)) }
    ensures as_many { IfOk result (λ made. length made ≡ variables) }
    ensures solves { IfOk result (λ made. (t : ℕ → Ty) → Solves t (equations_of made) ↔ Holds t equations.now) }
    ensures refused { result ≡ Err (fail.Refused (record {})) → (t : ℕ → Ty) → Holds t equations.now → Small variables t → ⊥ }
{
    let mut table = Table::new(alloc, variables)?;
    for equation in equations {
        solve_one(alloc, &mut table, equation)?;
    }
    Ok(table)
}
