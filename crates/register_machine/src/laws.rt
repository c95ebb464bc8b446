// What the designs show: functions without a body, whose contracts are the laws.
ghost use Rattle.register_machine.specs.Laws.{RegisterLaw, MachineLaw, StaticLaw, SpellableLaw, CodeLaw};

/// A design with one register settles within four delta cycles of each change and shows the outputs of its two
/// expressions, edge by edge, for every list of inputs and every order of the processes (IEEE Std 1076-1993,
/// section 12.6.4).
pub fn register_law()
    ensures { RegisterLaw }
{}

/// The design of a machine shows the codes of the machine's outputs, edge by edge: the first state's after the
/// reset, and after each input that of the state that it leads to. Each change is quiet after at most four delta
/// cycles, whatever the inputs and the orders of the processes.
pub fn machine_law()
    ensures { MachineLaw }
{}

/// The design of a machine keeps the static rules (IEEE Std 1076-1993, sections 2, 4 and 10, in this project's
/// profile), and its ports have the widths of the codes of inputs and outputs: at most 32 bits.
pub fn static_law()
    ensures { StaticLaw }
{}

/// The design of a machine can be spelled: its names, widths, nesting and lists are such as the grammar of designs
/// asks, so its canonical text spells it (IEEE Std 1076-1993, section 13, in this project's profile).
pub fn spellable_law()
    ensures { SpellableLaw }
{}

/// Where no constructor of a data type has fields, the code of a constructor's number is its encoding, and the type
/// is as wide as the codes.
pub fn code_law()
    ensures { CodeLaw }
{}
