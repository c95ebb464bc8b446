// The rules that a source (E00 to E25) or a text of the VHDL subset (V1 to V8) can break, with their texts.
ghost use Rattle.std.specs.Prelude.{◌≡◌};
ghost use Rattle.rw_base.specs.Rules.{rule_row, vrule_row};

/// A rule that a source can break. The first broken one, in this order, is the answer.
#[derive(Clone, Copy, Debug, PartialEq, Eq)]
pub enum Rule {
    /// The form of the source is not built yet.
    E00,
    /// More than 262,144 bytes.
    E01,
    /// At a byte neither gap nor token starts.
    E02,
    /// A block comment is not closed.
    E03,
    /// Layout: a token closes nothing of its kind, the stack is too high, or an opener is left.
    E04,
    /// An item is not of the grammar, a chain of operators has no one tree, or a tree is too deep.
    E05,
    /// An import of a module other than `ReWire` and `Prelude`.
    E06,
    /// A name is declared twice.
    E07,
    /// A name is not bound.
    E08,
    /// A signature or its binding is missing, or clauses differ in their number of patterns.
    E09,
    /// A type has a wrong kind.
    E10,
    /// A data type is recursive or has no constructor.
    E11,
    /// Bindings of a let group depend on each other in a cycle.
    E12,
    /// A declaration has no typing.
    E13,
    /// Patterns leave a value uncovered.
    E14,
    /// `start` is missing or is no device.
    E15,
    /// `par` or `refold` stands outside a system, or there are too many leaves.
    E16,
    /// Too many instances, or one whose types are too large.
    E17,
    /// A function's order, or its expansion, is too high.
    E18,
    /// A pure or state function lies on a cycle of calls.
    E19,
    /// A device call that is not in tail position lies on a cycle of calls.
    E20,
    /// Unguarded device calls form a cycle.
    E21,
    /// A leaf may return before it has signalled.
    E22,
    /// A data type is wider than 1,024 bits.
    E23,
    /// The program's weight is too great.
    E24,
    /// A function's depth is too great.
    E25,
}

/// A rule that a text of the VHDL subset can break. The first broken one, in this order, is the answer.
#[derive(Clone, Copy, Debug, PartialEq, Eq)]
pub enum VRule {
    /// A byte that no text of the subset has.
    V1,
    /// Something that is no token.
    V2,
    /// The tokens are not of the grammar.
    V3,
    /// A name is wrongly declared or used.
    V4,
    /// Widths do not agree.
    V5,
    /// A signal or `outp` is not assigned in exactly one process.
    V6,
    /// A function is used before its declaration.
    V7,
    /// `inp` or `outp` is too wide.
    V8,
}

// The code of a rule, and the text that is printed behind it.
#[derive(Clone, Copy)]
struct Printed {
    code: &'static str,
    text: &'static str,
}

const fn row(code: &'static str, text: &'static str) -> Printed
    ensures code { result.code.now ≡ code.now }
    ensures text { result.text.now ≡ text.now }
{
    Printed { code, text }
}

impl Rule {
    const fn row(self) -> Printed
        ensures code { result.code.now ≡ (rule_row self).0 }
        ensures text { result.text.now ≡ (rule_row self).1 }
    {
        match self {
            Rule::E00 => row("E00", "form not built"),
            Rule::E01 => row("E01", "source too long"),
            Rule::E02 => row("E02", "not a token"),
            Rule::E03 => row("E03", "comment not closed"),
            Rule::E04 => row("E04", "brackets or blocks do not match"),
            Rule::E05 => row("E05", "not of the grammar"),
            Rule::E06 => row("E06", "unknown module"),
            Rule::E07 => row("E07", "name declared twice"),
            Rule::E08 => row("E08", "name not bound"),
            Rule::E09 => row("E09", "signature and binding do not pair"),
            Rule::E10 => row("E10", "wrong kind"),
            Rule::E11 => row("E11", "data type recursive or empty"),
            Rule::E12 => row("E12", "cycle in local bindings"),
            Rule::E13 => row("E13", "not typable"),
            Rule::E14 => row("E14", "patterns do not cover"),
            Rule::E15 => row("E15", "no proper start"),
            Rule::E16 => row("E16", "system operation out of place"),
            Rule::E17 => row("E17", "too many instances"),
            Rule::E18 => row("E18", "order too high"),
            Rule::E19 => row("E19", "recursion without a device"),
            Rule::E20 => row("E20", "recursion not in tail position"),
            Rule::E21 => row("E21", "recursion not guarded by a signal"),
            Rule::E22 => row("E22", "device may return before a signal"),
            Rule::E23 => row("E23", "data type too wide"),
            Rule::E24 => row("E24", "program too heavy"),
            Rule::E25 => row("E25", "program too deep"),
        }
    }

    /// The code of the rule, as `E21`. It takes no memory.
    pub fn code(self) -> &'static str
        ensures { result.now ≡ (rule_row self).0 }
    {
        self.row().code
    }

    /// What the rule says of a source that breaks it. It takes no memory.
    pub fn text(self) -> &'static str
        ensures { result.now ≡ (rule_row self).1 }
    {
        self.row().text
    }
}

impl VRule {
    const fn row(self) -> Printed
        ensures code { result.code.now ≡ (vrule_row self).0 }
        ensures text { result.text.now ≡ (vrule_row self).1 }
    {
        match self {
            VRule::V1 => row("V1", "byte not allowed"),
            VRule::V2 => row("V2", "not a token"),
            VRule::V3 => row("V3", "not of the grammar"),
            VRule::V4 => row("V4", "name wrongly declared or used"),
            VRule::V5 => row("V5", "widths do not agree"),
            VRule::V6 => row("V6", "not exactly one driver"),
            VRule::V7 => row("V7", "function used before its declaration"),
            VRule::V8 => row("V8", "port too wide"),
        }
    }

    /// The code of the rule, as `V3`. It takes no memory.
    pub fn code(self) -> &'static str
        ensures { result.now ≡ (vrule_row self).0 }
    {
        self.row().code
    }

    /// What the rule says of a text that breaks it. It takes no memory.
    pub fn text(self) -> &'static str
        ensures { result.now ≡ (vrule_row self).1 }
    {
        self.row().text
    }
}
