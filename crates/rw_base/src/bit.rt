// The nine values that a wire can have (IEEE Std 1164-1993, `std_ulogic`), in the standard's order.

/// A value of one wire: uninitialised, forcing unknown, forcing 0 and 1, high impedance, weak unknown, weak 0
/// and 1, and don't care.
#[derive(Clone, Copy, Debug, PartialEq, Eq)]
pub enum Bit9 {
    U,
    X,
    Zero,
    One,
    Z,
    W,
    L,
    H,
    Dash,
}
