// Declarations of signals and functions at the end of a text.
ghost use Rattle.std.specs.Prelude.{◌≡◌, ◌++◌, OnOk, map};
ghost use Rattle.vh_tree.specs.declared.token.Mark.TheVariants as m;
ghost use Rattle.vh_tree.specs.Canonical.{function_end, function_head, function_tail, item_tokens, joined, param_tokens, params_tokens, separated, spelled, var_tokens, vec_tokens};

use crate::expr::push_expr;
use crate::stmt::push_stmts;
use crate::text::{push_mark, push_marks, push_name, push_range};
use rw_base::OutOfMemory;
use vh_tree::{Function, Ident, Item, Mark, Side, Var};

/// Appends the type of so many wires.
#[tactic(auto, unfolding(vh_tree::specs::Canonical::vec_tokens))]
pub fn push_vec(text: &mut Vec<u8>, width: u32) -> Result<(), OutOfMemory>
    ensures { OnOk result (text.new.items ≡ text.old.items ++ spelled (vec_tokens width)) }
{
    push_mark(text, Mark::StdLogicVector)?;
    push_range(text, width.saturating_sub(1), 0)
}

/// Appends a declaration of a variable or a signal.
fn push_var(text: &mut Vec<u8>, keyword: Mark, var: &Var) -> Result<(), OutOfMemory>
    ensures { OnOk result (text.new.items ≡ text.old.items ++ spelled (var_tokens keyword var.now)) }
{
    push_mark(text, keyword)?;
    push_name(text, &var.name)?;
    push_mark(text, Mark::Colon)?;
    push_vec(text, var.width)?;
    push_mark(text, Mark::Semicolon)
}

/// Appends the declarations of a function's variables.
fn push_vars(text: &mut Vec<u8>, vars: &[Var]) -> Result<(), OutOfMemory>
    ensures { OnOk result (text.new.items ≡ text.old.items ++ spelled (joined (map (var_tokens m.Variable) vars.now))) }
{
    for var in vars {
        push_var(text, Mark::Variable, var)?;
    }
    Ok(())
}

/// Appends a parameter.
fn push_param(text: &mut Vec<u8>, name: &Ident) -> Result<(), OutOfMemory>
    ensures { OnOk result (text.new.items ≡ text.old.items ++ spelled (param_tokens name.now)) }
{
    push_name(text, name)?;
    push_marks(text, &[Mark::Colon, Mark::StdLogicVector])
}

/// Appends parameters with `;` between two.
fn push_param_list(text: &mut Vec<u8>, params: &[Ident]) -> Result<(), OutOfMemory>
    ensures { OnOk result (text.new.items ≡ text.old.items ++ spelled (separated m.Semicolon (map param_tokens params.now))) }
{
    if let [first, others @ ..] = params {
        push_param(text, first)?;
        for param in others {
            push_mark(text, Mark::Semicolon)?;
            push_param(text, param)?;
        }
    }
    Ok(())
}

/// Appends the parameters of a function in parentheses, where it has any.
fn push_params(text: &mut Vec<u8>, params: &[Ident]) -> Result<(), OutOfMemory>
    ensures { OnOk result (text.new.items ≡ text.old.items ++ spelled (params_tokens params.now)) }
{
    if params.is_empty() {
        return Ok(());
    }
    push_mark(text, Mark::Opens)?;
    push_param_list(text, params)?;
    push_mark(text, Mark::Closes)
}

/// Appends a function from its name to its variables.
fn push_function_head(text: &mut Vec<u8>, function: &Function) -> Result<(), OutOfMemory>
    ensures { OnOk result (text.new.items ≡ text.old.items ++ spelled (function_head function.now)) }
{
    push_mark(text, Mark::Function)?;
    push_name(text, &function.name)?;
    push_params(text, function.params.as_slice())?;
    push_marks(text, &[Mark::Return, Mark::StdLogicVector, Mark::Is])?;
    push_vars(text, function.vars.as_slice())
}

/// Appends the end of a function of this name.
fn push_function_end(text: &mut Vec<u8>, name: &Ident) -> Result<(), OutOfMemory>
    ensures { OnOk result (text.new.items ≡ text.old.items ++ spelled (function_end name.now)) }
{
    push_marks(text, &[Mark::Semicolon, Mark::End])?;
    push_name(text, name)?;
    push_mark(text, Mark::Semicolon)
}

/// Appends a function from `begin` to its end.
fn push_function_tail(text: &mut Vec<u8>, function: &Function) -> Result<(), OutOfMemory>
    ensures { OnOk result (text.new.items ≡ text.old.items ++ spelled (function_tail function.now)) }
{
    push_mark(text, Mark::Begin)?;
    push_stmts(text, Side::Function, function.body.as_slice())?;
    push_mark(text, Mark::Return)?;
    push_expr(text, &function.result)?;
    push_function_end(text, &function.name)
}

/// Appends what is declared in the architecture.
fn push_item(text: &mut Vec<u8>, item: &Item) -> Result<(), OutOfMemory>
    ensures { OnOk result (text.new.items ≡ text.old.items ++ spelled (item_tokens item.now)) }
{
    match item {
        Item::Signal(var) => push_var(text, Mark::Signal, var),
        Item::Function(function) => {
            push_function_head(text, function)?;
            push_function_tail(text, function)
        }
    }
}

/// Appends all that is declared in the architecture.
pub fn push_items(text: &mut Vec<u8>, items: &[Item]) -> Result<(), OutOfMemory>
    ensures { OnOk result (text.new.items ≡ text.old.items ++ spelled (joined (map item_tokens items.now))) }
{
    for item in items {
        push_item(text, item)?;
    }
    Ok(())
}
