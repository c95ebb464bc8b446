// The expressions of a design.

use crate::Ident;
use rw_base::Bit9;
use sqlite_items::Items;

/// An expression. Its value is a list of bits, the leftmost first.
#[derive(Drop)]
pub enum VExpr {
    /// A variable, a signal, `inp`, a parameter, or the bare name of a function without parameters.
    Name(Ident),
    /// `name ( a downto b )`: the bits of a name from place `a` down to place `b`, the last bit having place 0.
    Slice(Ident, u32, u32),
    /// A string of the nine values.
    Literal(Items<Bit9>),
    /// A function of its arguments, of which there is at least one.
    Call(Ident, Items<VExpr>),
    /// `a & b`: one part after another. There are at least two, and none of them is a join.
    Join(Items<VExpr>),
}
