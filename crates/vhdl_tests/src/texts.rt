// Worked designs as texts: canonical ones, as the printer is to write them, and then two more.

/// A register of one bit that each 1 of the input turns over.
pub const SWITCH: &[u8] = b"\
    library ieee ;\n\
    use ieee . std_logic_1164 . all ;\n\
    entity rewire is\n\
    port ( clk : in std_logic ;\n\
    rst : in std_logic ;\n\
    inp : in std_logic_vector ( 0 downto 0 ) ;\n\
    outp : out std_logic_vector ( 0 downto 0 ) ) ;\n\
    end rewire ;\n\
    architecture behaviour of rewire is\n\
    signal s0 : std_logic_vector ( 0 downto 0 ) ;\n\
    function f0 ( p0 : std_logic_vector ;\n\
    p1 : std_logic_vector ) return std_logic_vector is\n\
    variable v0 : std_logic_vector ( 0 downto 0 ) ;\n\
    variable v1 : std_logic_vector ( 0 downto 0 ) ;\n\
    variable v2 : std_logic_vector ( 0 downto 0 ) ;\n\
    begin\n\
    v0 := p0 ;\n\
    v1 := p1 ;\n\
    v2 := v1 ;\n\
    if v0 = \"1\" and v1 = \"0\" then\n\
    v2 := \"1\" ;\n\
    elsif v0 = \"1\" then\n\
    v2 := \"0\" ;\n\
    end if ;\n\
    return v2 ;\n\
    end f0 ;\n\
    begin\n\
    process ( clk ) begin\n\
    if rising_edge ( clk ) then\n\
    if rst = '1' then\n\
    s0 <= \"0\" ;\n\
    else\n\
    s0 <= f0 ( inp , s0 ) ;\n\
    end if ;\n\
    end if ;\n\
    end process ;\n\
    process ( s0 ) begin\n\
    outp <= s0 ;\n\
    end process ;\n\
    end behaviour ;\n\
";

/// Two processes that feed each other, and so never come to rest.
pub const OSCILLATING: &[u8] = b"\
    library ieee ;\n\
    use ieee . std_logic_1164 . all ;\n\
    entity rewire is\n\
    port ( clk : in std_logic ;\n\
    rst : in std_logic ;\n\
    inp : in std_logic_vector ( 0 downto 0 ) ;\n\
    outp : out std_logic_vector ( 0 downto 0 ) ) ;\n\
    end rewire ;\n\
    architecture behaviour of rewire is\n\
    signal s0 : std_logic_vector ( 0 downto 0 ) ;\n\
    signal s1 : std_logic_vector ( 0 downto 0 ) ;\n\
    begin\n\
    process ( s0 ) begin\n\
    if s0 = \"1\" then\n\
    s1 <= \"0\" ;\n\
    else\n\
    s1 <= \"1\" ;\n\
    end if ;\n\
    end process ;\n\
    process ( s1 ) begin\n\
    s0 <= s1 ;\n\
    end process ;\n\
    process ( s0 ) begin\n\
    outp <= s0 ;\n\
    end process ;\n\
    end behaviour ;\n\
";

/// `s0` takes '1' from the input, and else keeps what `s1` has; `s1` takes `s0`.
pub const LATCH: &[u8] = b"\
    library ieee ;\n\
    use ieee . std_logic_1164 . all ;\n\
    entity rewire is\n\
    port ( clk : in std_logic ;\n\
    rst : in std_logic ;\n\
    inp : in std_logic_vector ( 0 downto 0 ) ;\n\
    outp : out std_logic_vector ( 0 downto 0 ) ) ;\n\
    end rewire ;\n\
    architecture behaviour of rewire is\n\
    signal s0 : std_logic_vector ( 0 downto 0 ) ;\n\
    signal s1 : std_logic_vector ( 0 downto 0 ) ;\n\
    begin\n\
    process ( inp , s1 ) begin\n\
    if inp = \"1\" then\n\
    s0 <= \"1\" ;\n\
    else\n\
    s0 <= s1 ;\n\
    end if ;\n\
    end process ;\n\
    process ( s0 ) begin\n\
    s1 <= s0 ;\n\
    end process ;\n\
    process ( s1 ) begin\n\
    outp <= s1 ;\n\
    end process ;\n\
    end behaviour ;\n\
";

/// `f0` returns a variable that is never written, `f1` joins it with two more bits.
pub const UNWRITTEN: &[u8] = b"\
    library ieee ;\n\
    use ieee . std_logic_1164 . all ;\n\
    entity rewire is\n\
    port ( clk : in std_logic ;\n\
    rst : in std_logic ;\n\
    inp : in std_logic_vector ( 0 downto 0 ) ;\n\
    outp : out std_logic_vector ( 3 downto 0 ) ) ;\n\
    end rewire ;\n\
    architecture behaviour of rewire is\n\
    function f0 return std_logic_vector is\n\
    variable v0 : std_logic_vector ( 1 downto 0 ) ;\n\
    begin\n\
    return v0 ;\n\
    end f0 ;\n\
    function f1 return std_logic_vector is\n\
    begin\n\
    return f0 & \"1-\" ;\n\
    end f1 ;\n\
    begin\n\
    process ( inp ) begin\n\
    outp <= f1 ;\n\
    end process ;\n\
    end behaviour ;\n\
";
