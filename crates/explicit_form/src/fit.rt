// Makes the machine of a tree whose names are in order.
ghost use Rattle.std.specs.Prelude.{◌≡◌, ◌<◌, ◌&&◌, not, true, false, [], ◌∷◌, codes, map, length, is_some, set, get_or, nat_eq, unwrap_or, IfOk, IsErrOf, Some, None};
ghost use Rattle.std.specs.List.{list_all};
ghost use Rattle.explicit_form.specs.Fit as fit;
ghost use Rattle.explicit_form.specs.Fit.{is_among, is_fit, machine_of, state_of, fits_function, fits_arm, entry_of, entries_from, are_new};
ghost use Rattle.explicit_form.specs.Judged.{Judges};
ghost use Rattle.rw_base.specs.declared.fail.Failure.TheVariants as fail;

use crate::form::{Arm, Form, Function};
use crate::judge::{constructors, function_names, judge_constructors, judge_types};
use crate::names::Names;
use register_machine::{Machine, State};
use rw_base::{Name, NotSpelled, Unread};
use sqlite_items::Items;
use std::alloc::Global;

// The names that the functions' bodies are read by.
#[derive(Drop)]
struct Tables {
    inputs: Names,
    outputs: Names,
    functions: Names,
}

// The place of a name, which stands among these.
fn place(names: &Names, name: &Name) -> Result<usize, Unread>
    ensures found { Judges result (is_among name.now names.now) (λ place. place ≡ fit.place_of names.now name.now) }
    ensures within { IfOk result (λ place. place < length names.now) }
{
    names.place(name).ok_or(Unread::Refused(NotSpelled))
}

// What one more alternative leads to, in the slot of its input.
fn add_arm(tables: &Tables, slots: &mut [Option<usize>], arm: &Arm) -> Result<(), Unread>
    requires { length slots.old ≡ length tables.now.inputs }
    ensures { let entry = entry_of tables.now.inputs tables.now.functions arm.now in
        Judges result (fits_arm tables.now.inputs tables.now.functions arm.now && not (is_some (get_or slots.old entry.0 None)))
        (λ _. slots.new ≡ set slots.old entry.0 (Some entry.1)) }
{
    let input = place(&tables.inputs, &arm.constructor)?;
    let target = place(&tables.functions, &arm.target)?;
    if slots[input].is_some() {
        return Err(Unread::Refused(NotSpelled));
    }
    slots[input] = Some(target);
    Ok(())
}

// For each input, what its alternative leads to, if there is one; no input has two.
fn slots(alloc: Global, tables: &Tables, arms: &[Arm]) -> Result<Vec<Option<usize>>, Unread>
    ensures { let entries = map (entry_of tables.now.inputs tables.now.functions) arms.now in
        Judges result (list_all (fits_arm tables.now.inputs tables.now.functions) arms.now && are_new nat_eq [] (map (λ e. e.0) entries))
        (λ slots. slots.items ≡ entries_from 0 (length tables.now.inputs) entries) }
{
    let mut slots = vec![in alloc; None; tables.inputs.len()]?;
    for arm in arms {
        add_arm(tables, &mut slots, arm)?;
    }
    Ok(slots)
}

// What the slots hold, of which none is empty.
fn filled(alloc: Global, slots: &[Option<usize>]) -> Result<Items<usize>, Unread>
    ensures { Judges result (list_all is_some slots.now) (λ next. next ≡ map (λ o. unwrap_or o 0) slots.now) }
{
    let mut next = Items::new(alloc);
    for slot in slots {
        let Some(target) = *slot else {
            return Err(Unread::Refused(NotSpelled));
        };
        next.push(target)?;
    }
    Ok(next)
}

// Whether a function's variable hides a function.
fn hides(functions: &Names, bound: &Name) -> bool
    ensures { result ≡ is_among bound.now (codes "start" ∷ functions.now) }
{
    bound.as_slice() == b"start".as_slice() || functions.contains(bound)
}

// The state of a function.
fn state(alloc: Global, tables: &Tables, function: &Function) -> Result<State, Unread>
    ensures { Judges result (fits_function tables.now.inputs tables.now.outputs tables.now.functions function.now)
        (λ state. state ≡ state_of tables.now.inputs tables.now.outputs tables.now.functions function.now) }
{
    if hides(&tables.functions, &function.bound) {
        return Err(Unread::Refused(NotSpelled));
    }
    let shown = place(&tables.outputs, &function.shown)?;
    let slots = slots(alloc, tables, function.arms.as_slice())?;
    let next = filled(alloc, &slots)?;
    Ok(State { shown, next })
}

// The states of these functions.
fn states(alloc: Global, tables: &Tables, functions: &[Function]) -> Result<Items<State>, Unread>
    ensures { Judges result (list_all (fits_function tables.now.inputs tables.now.outputs tables.now.functions) functions.now)
        (λ states. states ≡ map (state_of tables.now.inputs tables.now.outputs tables.now.functions) functions.now) }
{
    let mut states = Items::new(alloc);
    for function in functions {
        states.push(state(alloc, tables, function)?)?;
    }
    Ok(states)
}

/// The machine of a source: a state for each function, in the order of the source. It is refused exactly where the
/// names of the source aren't in order.
pub fn machine(alloc: Global, form: &Form) -> Result<Machine, Unread>
    ensures found { IfOk result (λ m. (is_fit form.now ≡ true) × (m ≡ machine_of form.now)) }
    ensures refused { IsErrOf result (fail.Refused (record {})) → is_fit form.now ≡ false }
{
    let datas = form.datas.as_slice();
    judge_types(alloc, datas)?;
    judge_constructors(alloc, datas)?;
    let functions = function_names(alloc, form.functions.as_slice())?;
    let inputs = constructors(alloc, datas, &form.ports.input)?;
    let outputs = constructors(alloc, datas, &form.ports.output)?;
    let reset = place(&functions, &form.start)?;
    let tables = Tables {
        inputs,
        outputs,
        functions,
    };
    let states = states(alloc, &tables, form.functions.as_slice())?;
    Ok(Machine {
        inputs: tables.inputs.len(),
        outputs: tables.outputs.len(),
        reset,
        states,
    })
}
