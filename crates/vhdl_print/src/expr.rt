// Expressions and tests at the end of a text.
ghost use Rattle.std.specs.Prelude.{◌≡◌, ◌++◌, OnOk, map};
ghost use Rattle.vh_tree.specs.declared.token.Mark.TheVariants as m;
ghost use Rattle.vh_tree.specs.Canonical.{expr_tokens, test_tokens, separated, spelled};

use crate::text::{push_bits, push_mark, push_marks, push_name, push_range};
use rw_base::OutOfMemory;
use vh_tree::{Mark, Test, VExpr};

/// Appends an expression.
#[cycle(expr)]
pub fn push_expr(text: &mut Vec<u8>, expr: &VExpr) -> Result<(), OutOfMemory>
    ensures { OnOk result (text.new.items ≡ text.old.items ++ spelled (expr_tokens expr.now)) }
{
    match expr {
        VExpr::Name(name) => push_name(text, name),
        VExpr::Slice(name, high, low) => {
            push_name(text, name)?;
            push_range(text, *high, *low)
        }
        VExpr::Literal(bits) => push_bits(text, bits.as_slice()),
        VExpr::Call(name, arguments) => {
            push_name(text, name)?;
            push_mark(text, Mark::Opens)?;
            push_parts(text, Mark::Comma, arguments.as_slice())?;
            push_mark(text, Mark::Closes)
        }
        VExpr::Join(parts) => push_parts(text, Mark::Amp, parts.as_slice()),
    }
}

/// Appends expressions with a mark between two.
#[cycle(expr)]
fn push_parts(text: &mut Vec<u8>, between: Mark, parts: &[VExpr]) -> Result<(), OutOfMemory>
    ensures { OnOk result (text.new.items ≡ text.old.items ++ spelled (separated between (map expr_tokens parts.now))) }
{
    if let [first, others @ ..] = parts {
        push_expr(text, first)?;
        for part in others {
            push_mark(text, between)?;
            push_expr(text, part)?;
        }
    }
    Ok(())
}

/// Appends a test.
fn push_test(text: &mut Vec<u8>, test: &Test) -> Result<(), OutOfMemory>
    ensures { OnOk result (text.new.items ≡ text.old.items ++ spelled (test_tokens test.now)) }
{
    match test {
        Test::Equal(left, bits) => {
            push_expr(text, left)?;
            push_mark(text, Mark::Equal)?;
            push_bits(text, bits.as_slice())
        }
        Test::Rising => push_marks(
            text,
            &[Mark::RisingEdge, Mark::Opens, Mark::Clk, Mark::Closes],
        ),
        Test::Reset => push_marks(text, &[Mark::Rst, Mark::Equal, Mark::High]),
    }
}

/// Appends tests with `and` between two.
pub fn push_tests(text: &mut Vec<u8>, tests: &[Test]) -> Result<(), OutOfMemory>
    ensures { OnOk result (text.new.items ≡ text.old.items ++ spelled (separated m.And (map test_tokens tests.now))) }
{
    if let [first, others @ ..] = tests {
        push_test(text, first)?;
        for test in others {
            push_mark(text, Mark::And)?;
            push_test(text, test)?;
        }
    }
    Ok(())
}
