// Why a change of ports has no end.

/// A change isn't quiet after 64 delta cycles: its number, counted from 1, the start. At the type's last value the
/// number stays.
#[derive(Clone, Copy, Debug, PartialEq, Eq)]
pub struct NotSettled(pub u32);
