// Annotations of the bound tree.
ghost use Rattle.std.specs.Prelude.{◌≡◌, ◌+◌, IfOk, OnOk};
ghost use Rattle.rw_scope_rules.specs.Bindings.{unnamed as unnamed_at, bound_to as bound_at};

use rw_base::{OutOfMemory, Span};
use rw_scope_rules::{Binding, Bound};

// That of a node that names nothing.
pub fn unnamed(span: Span) -> Bound
    ensures { result ≡ unnamed_at span }
{
    Bound { span, bound: None }
}

// That of a node that binds something, or names something that this is bound to.
pub fn bound_to(span: Span, bound: Option<Binding>) -> Bound
    ensures { result ≡ bound_at span bound }
{
    Bound { span, bound }
}

// Takes the next number. Numbers have 32 bits: more names are want of memory.
pub fn next(number: &mut u32) -> Result<u32, OutOfMemory>
    ensures taken { IfOk result (λ taken. taken ≡ number.old) }
    ensures counted { OnOk result (number.new ≡ number.old + 1) }
{
    let taken = *number;
    if taken == u32::MAX {
        return Err(OutOfMemory);
    }
    *number = taken + 1;
    Ok(taken)
}
