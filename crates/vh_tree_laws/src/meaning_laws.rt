// Laws of the meaning of a design. Each is the contract of a function that does nothing.
ghost use Rattle.vh_tree_laws.specs.Laws.{OneOrderLaw, EveryOrderLaw, SettledInEveryOrderLaw, BenchInEveryOrderLaw, TextOrderLaw, SettledLaw, ExprWidthLaw, FunctionWidthLaw, ProcessWidthLaw};

/// The order in which processes run makes no difference where the static rules hold: to one delta cycle, to the
/// states after each of any number of delta cycles, to when a change is quiet, and to what the bench reads. The
/// order of the text is one of the orders.
pub fn order_law()
    ensures one_cycle { OneOrderLaw }
    ensures each_cycle { EveryOrderLaw }
    ensures settles { SettledInEveryOrderLaw }
    ensures reads { BenchInEveryOrderLaw }
    ensures in_text { TextOrderLaw }
{}

/// Settling is the first quiet state among those after each delta cycle.
pub fn settling_law()
    ensures { SettledLaw }
{}

/// Where the static rules hold, the value of an expression has its static width: in any scope that keeps to widths;
/// of a function of a static design, of arguments of its parameters' widths; and in a process, over ports and signals
/// of theirs.
pub fn width_law()
    ensures expression { ExprWidthLaw }
    ensures function { FunctionWidthLaw }
    ensures process { ProcessWidthLaw }
{}
