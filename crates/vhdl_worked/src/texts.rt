// What small texts spell. Each is the contract of a function that does nothing, and is proved by reading the text.
ghost use Rattle.std.specs.Prelude.{◌≡◌, ◌∷◌, [], codes, IsSome, None};
ghost use Rattle.rw_base.specs.declared.bit.Bit9.TheVariants.{One, X};
ghost use Rattle.vh_tree.specs.declared.token.Mark.TheVariants as m;
ghost use Rattle.vh_tree.specs.declared.token.Token.TheVariants as t;
ghost use Rattle.vh_tree.specs.declared.expr.VExpr.TheVariants as w;
ghost use Rattle.vh_tree.specs.declared.stmt.Test.TheVariants as c;
ghost use Rattle.vh_tree.specs.declared.stmt.VStmt.TheVariants as s;
ghost use Rattle.vh_tree.specs.Text.{IsText};
ghost use Rattle.vh_tree.specs.Spelling.{IsSpelled};
ghost use Rattle.vh_tree_reading.specs.Scan.{scanned};
ghost use Rattle.vh_tree_reading.specs.ReadDesign.{read_text};

/// Case, gaps, the longest run, and a comment to the end.
pub fn tokens_of_a_line()
    ensures spelled { IsText (codes "If v0_A=\"1X\"then 3downto--b") (t.Mark m.If ∷ t.Id (codes "v0_a") ∷ t.Mark m.Equal ∷ t.Bits (One ∷ X ∷ []) ∷ t.Mark m.Then ∷ t.Number 3 ∷ t.Mark m.Downto ∷ []) }
    // One word, and not a token; an underscore too many; a leading zero; a name without a digit.
    ensures joined { scanned (codes "ifs") ≡ None }
    ensures underscores { scanned (codes "a__1") ≡ None }
    ensures zero { scanned (codes "01") ≡ None }
    ensures plain { scanned (codes "wire") ≡ None }
{}

/// A whole text, with no gap that isn't needed.
pub fn a_text_and_its_design()
    ensures { IsSpelled (codes "library IEEE;use ieee.std_logic_1164.all;entity Rewire is port(clk:in std_logic;rst:in std_logic;inp:in std_logic_vector(1 downto 0);outp:out std_logic_vector(1 downto 0));end rewire;architecture behaviour of rewire is begin process(inp)begin if rst='1'then outp<=inp(0 downto 0)&\"X\";else end if;end process;end behaviour;-- done") (record { inp = 2; outp = 2; items = []; processes = record { sensitive = codes "inp" ∷ []; body = s.If (record { tests = c.Reset ∷ []; body = s.Assign (codes "outp") (w.Join (w.Slice (codes "inp") 0 0 ∷ w.Literal (X ∷ []) ∷ [])) ∷ [] } ∷ []) [] ∷ [] } ∷ [] }) }
{}

/// A register of one bit, with a function of two parameters: reading finds a design.
pub fn a_register_is_read()
    ensures { IsSome (read_text (codes "library ieee ; use ieee . std_logic_1164 . all ; entity rewire is port ( clk : in std_logic ; rst : in std_logic ; inp : in std_logic_vector ( 0 downto 0 ) ; outp : out std_logic_vector ( 0 downto 0 ) ) ; end rewire ; architecture behaviour of rewire is signal s0 : std_logic_vector ( 0 downto 0 ) ; function f0 ( p0 : std_logic_vector ; p1 : std_logic_vector ) return std_logic_vector is variable v0 : std_logic_vector ( 0 downto 0 ) ; variable v1 : std_logic_vector ( 0 downto 0 ) ; variable v2 : std_logic_vector ( 0 downto 0 ) ; begin v0 := p0 ; v1 := p1 ; v2 := v1 ; if v0 = \"1\" and v1 = \"0\" then v2 := \"1\" ; elsif v0 = \"1\" then v2 := \"0\" ; end if ; return v2 ; end f0 ; begin process ( clk ) begin if rising_edge ( clk ) then if rst = '1' then s0 <= \"0\" ; else s0 <= f0 ( inp , s0 ) ; end if ; end if ; end process ; process ( s0 ) begin outp <= s0 ; end process ; end behaviour ;")) }
{}
