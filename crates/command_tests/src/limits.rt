// Commands at their limits: the longest source and one byte more, each call of the store and of the stream that fails, a trace
// with CR and LF, and a change that doesn't settle after others that do.

use rewire_top::{Status, rewire};
use rw_base::{MemorySink, MemoryStore, Place, Rule};
use std::alloc::{AllocError, Global};
use std::test::Fail;
use vhdl_tests::texts::SWITCH;

// The most bytes of a source.
const LONGEST: usize = 262_144;

// A call that isn't made.
const NEVER: u32 = 9;

// A switch in the explicit form.
const SOURCE: &[u8] = b"{ data L = Off | On ;
start :: ReT Bool L I () ;
start = off ;
off :: ReT Bool L I () ;
off = signal Off >>= \\x -> case x of { False -> off ; True -> on } ;
on :: ReT Bool L I () ;
on = signal On >>= \\x -> case x of { False -> on ; True -> off } }
";

// Two processes that feed each other without an end, while the input is 1.
const LOOPED: &[u8] = b"\
    library ieee ;\n\
    use ieee . std_logic_1164 . all ;\n\
    entity rewire is\n\
    port ( clk : in std_logic ;\n\
    rst : in std_logic ;\n\
    inp : in std_logic_vector ( 0 downto 0 ) ;\n\
    outp : out std_logic_vector ( 0 downto 0 ) ) ;\n\
    end rewire ;\n\
    architecture behaviour of rewire is\n\
    signal s0 : std_logic_vector ( 0 downto 0 ) ;\n\
    signal s1 : std_logic_vector ( 0 downto 0 ) ;\n\
    begin\n\
    process ( s0 , inp ) begin\n\
    if inp = \"1\" and s0 = \"1\" then\n\
    s1 <= \"0\" ;\n\
    elsif inp = \"1\" then\n\
    s1 <= \"1\" ;\n\
    else\n\
    s1 <= \"0\" ;\n\
    end if ;\n\
    end process ;\n\
    process ( s1 ) begin\n\
    s0 <= s1 ;\n\
    end process ;\n\
    process ( s0 ) begin\n\
    outp <= s0 ;\n\
    end process ;\n\
    end behaviour ;\n\
    ";

fn words(alloc: Global, line: &str) -> Result<Vec<String>, AllocError> {
    let mut words = Vec::new(alloc);
    for text in line.split_whitespace() {
        words.push(String::from_str(alloc, text)?)?;
    }
    Ok(words)
}

// So many spaces.
fn spaces(alloc: Global, count: usize) -> Result<Vec<u8>, AllocError> {
    let mut bytes = Vec::new(alloc);
    for _ in 0..count {
        bytes.push(b' ')?;
    }
    Ok(bytes)
}

// A number for each call that fails.
fn failing(alloc: Global, call: u32) -> Result<Vec<u32>, AllocError> {
    [call].to_vec(alloc)
}

#[test]
fn a_source_has_262144_bytes_at_most(rt: HostRuntime) -> Result<(), Fail> {
    let alloc = rt.alloc();
    let asked = words(alloc, "check a")?;
    for (count, rule) in [(LONGEST, Rule::E15), (LONGEST + 1, Rule::E01)] {
        let mut store = MemoryStore::new(alloc, Vec::new(alloc));
        store
            .place("a", spaces(alloc, count)?.as_slice())
            .map_err(|_| "memory")?;
        let mut out = MemorySink::new(alloc, Vec::new(alloc));
        let mut err = MemorySink::new(alloc, Vec::new(alloc));
        let status = rewire(alloc, &asked, &mut store, &mut out, &mut err);
        assert_eq!(rt; status, Status::Refused(rule, Place::START));
    }
    Ok(())
}

#[test]
fn faults_have_their_lines(rt: HostRuntime) -> Result<(), Fail> {
    let alloc = rt.alloc();
    for (line, load, put, number, shown) in [
        ("compile c b", 0, NEVER, 3, b"read fault\n".as_slice()),
        ("compile c b", 1, NEVER, 4, b"write fault\n"),
        ("compile none b", NEVER, NEVER, 3, b"read fault\n"),
        ("sim a t", 0, NEVER, 3, b"read fault\n"),
        ("sim a t", 1, NEVER, 3, b"read fault\n"),
        ("sim a t", NEVER, 0, 4, b"write fault\n"),
    ] {
        let mut store = MemoryStore::new(alloc, failing(alloc, load)?);
        store.place("a", SWITCH).map_err(|_| "memory")?;
        store.place("t", b"1\n").map_err(|_| "memory")?;
        store.place("c", SOURCE).map_err(|_| "memory")?;
        let mut out = MemorySink::new(alloc, failing(alloc, put)?);
        let mut err = MemorySink::new(alloc, Vec::new(alloc));
        let asked = words(alloc, line)?;
        let status = rewire(alloc, &asked, &mut store, &mut out, &mut err);
        assert_eq!(rt; status.number(), number);
        assert_eq!(rt; err.bytes(), shown);
        assert_eq!(rt; store.read("b"), None);
    }
    Ok(())
}

#[test]
fn texts_are_simulated(rt: HostRuntime) -> Result<(), Fail> {
    let alloc = rt.alloc();
    let asked = words(alloc, "sim a t")?;
    for (text, trace, number, shown, line) in [
        (
            SWITCH,
            b"1\r\n1".as_slice(),
            0,
            b"0\n1\n0\n".as_slice(),
            b"".as_slice(),
        ),
        (LOOPED, b"0\n1\n", 8, b"", b"change 5 not settled\n"),
    ] {
        let mut store = MemoryStore::new(alloc, Vec::new(alloc));
        store.place("a", text).map_err(|_| "memory")?;
        store.place("t", trace).map_err(|_| "memory")?;
        let mut out = MemorySink::new(alloc, Vec::new(alloc));
        let mut err = MemorySink::new(alloc, Vec::new(alloc));
        let status = rewire(alloc, &asked, &mut store, &mut out, &mut err);
        assert_eq!(rt; status.number(), number);
        assert_eq!(rt; out.bytes(), shown);
        assert_eq!(rt; err.bytes(), line);
    }
    Ok(())
}
