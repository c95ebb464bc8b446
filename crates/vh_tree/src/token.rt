// The tokens of the texts of designs (IEEE Std 1076-1993, sections 13.2 and 13.9), shared by printer and reader.
ghost use Rattle.std.specs.Prelude.{◌≡◌};
ghost use Rattle.vh_tree.specs.VToken.{spelling};

use crate::Ident;
use rw_base::Bit9;
use sqlite_items::Items;

/// A token that has one spelling only: a word of the grammar, a symbol, or the character literal `'1'`.
#[derive(Clone, Copy, Debug, PartialEq, Eq)]
pub enum Mark {
    All,
    And,
    Architecture,
    Begin,
    Behaviour,
    Clk,
    Downto,
    Else,
    Elsif,
    End,
    Entity,
    Function,
    Ieee,
    If,
    In,
    Inp,
    Is,
    Library,
    Of,
    Out,
    Outp,
    Port,
    Process,
    Return,
    Rewire,
    RisingEdge,
    Rst,
    Signal,
    StdLogic,
    StdLogic1164,
    StdLogicVector,
    Then,
    Use,
    Variable,
    Opens,
    Closes,
    Comma,
    Semicolon,
    Colon,
    Dot,
    Amp,
    Equal,
    Assign,
    Drive,
    High,
}

/// A token: a mark, a declared name in lower case, a number, or a string of the nine values.
#[derive(Drop)]
pub enum Token {
    Mark(Mark),
    Id(Ident),
    Number(u32),
    Bits(Items<Bit9>),
}

/// Where a statement stands. Assignments are written `:=` in functions and `<=` in processes.
#[derive(Clone, Copy, Debug, PartialEq, Eq)]
pub enum Side {
    Function,
    Process,
}

impl Mark {
    /// The bytes of the token, in lower case.
    pub fn text(self) -> &'static [u8]
        ensures { result.now ≡ spelling self }
    {
        match self {
            Mark::All => b"all",
            Mark::And => b"and",
            Mark::Architecture => b"architecture",
            Mark::Begin => b"begin",
            Mark::Behaviour => b"behaviour",
            Mark::Clk => b"clk",
            Mark::Downto => b"downto",
            Mark::Else => b"else",
            Mark::Elsif => b"elsif",
            Mark::End => b"end",
            Mark::Entity => b"entity",
            Mark::Function => b"function",
            Mark::Ieee => b"ieee",
            Mark::If => b"if",
            Mark::In => b"in",
            Mark::Inp => b"inp",
            Mark::Is => b"is",
            Mark::Library => b"library",
            Mark::Of => b"of",
            Mark::Out => b"out",
            Mark::Outp => b"outp",
            Mark::Port => b"port",
            Mark::Process => b"process",
            Mark::Return => b"return",
            Mark::Rewire => b"rewire",
            Mark::RisingEdge => b"rising_edge",
            Mark::Rst => b"rst",
            Mark::Signal => b"signal",
            Mark::StdLogic => b"std_logic",
            Mark::StdLogic1164 => b"std_logic_1164",
            Mark::StdLogicVector => b"std_logic_vector",
            Mark::Then => b"then",
            Mark::Use => b"use",
            Mark::Variable => b"variable",
            Mark::Opens => b"(",
            Mark::Closes => b")",
            Mark::Comma => b",",
            Mark::Semicolon => b";",
            Mark::Colon => b":",
            Mark::Dot => b".",
            Mark::Amp => b"&",
            Mark::Equal => b"=",
            Mark::Assign => b":=",
            Mark::Drive => b"<=",
            Mark::High => b"'1'",
        }
    }
}
