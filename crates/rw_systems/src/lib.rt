//! Systems: which devices an expression, the body of `start`, puts side by side and feeds back, as a tree whose leaves are devices.
//!
//! It meets `system_of` of `rw_meaning`, and leaves to others what the devices do, and whether `par` and `refold` stand
//! where they may. The compiler's stages take systems apart with it.
//! Begin with `parts.rt`, then `apart.rt`.
#![tactic(auto)]

mod apart;
mod binds;
mod operated;
mod parts;

pub use apart::split;
pub use binds::Binds;
pub use parts::Parts;
