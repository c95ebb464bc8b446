// How the program ends.
ghost use Rattle.std.specs.Prelude.{◌≡◌};
ghost use Rattle.rewire_top.specs.Numbers.{number_of};

use rw_base::{Place, Rule, VRule};

/// How a command ends. Every status but `Ok` has a line of its own.
#[derive(Clone, Copy, Debug, PartialEq, Eq)]
pub enum Status {
    /// The command did what it is for.
    Ok,
    /// The source breaks this rule, first at this place.
    Refused(Rule, Place),
    /// The words are no command.
    Usage,
    /// The store failed at a load.
    ReadFault,
    /// The store failed at a save, or `out` at a put.
    WriteFault,
    /// Memory ran out.
    OutOfMemory,
    /// The text breaks this rule of the VHDL subset.
    VhdlRefused(VRule),
    /// The line of the trace with this number, from 1, is refused.
    TraceRefused(u32),
    /// The change of the bench with this number, from 1, does not settle.
    NotSettled(u32),
}

impl Status {
    /// The exit status of the program: 0 to 8, in the order of the variants. It takes no memory.
    pub fn number(&self) -> u8
        ensures { result ≡ number_of self.now }
    {
        match self {
            Status::Ok => 0,
            Status::Refused(_, _) => 1,
            Status::Usage => 2,
            Status::ReadFault => 3,
            Status::WriteFault => 4,
            Status::OutOfMemory => 5,
            Status::VhdlRefused(_) => 6,
            Status::TraceRefused(_) => 7,
            Status::NotSettled(_) => 8,
        }
    }
}
