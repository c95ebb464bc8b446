// Commands on worked sources and texts: their statuses, their lines, and what stands afterwards.

use rewire_top::rewire;
use rw_base::{MemorySink, MemoryStore};
use std::alloc::{AllocError, Global};
use std::test::Fail;
use vhdl_tests::texts::SWITCH;

// A state that the input toggles.
const TOGGLE: &[u8] = b"start :: ReT Bool Bool I ()
start = loop False
loop :: Bool -> ReT Bool Bool I ()
loop s = do
  i <- signal s
  loop (toggle i s)
toggle :: Bool -> Bool -> Bool
toggle True s = not s
toggle False s = s
";

// A function with a guard alone, which needn't hold.
const GUARDED: &[u8] = b"start :: ReT Bool Bool I ()
start = loop False
loop :: Bool -> ReT Bool Bool I ()
loop x = signal x >>= \\y -> loop (pick y x)
pick :: Bool -> Bool -> Bool
pick a b | a = not b
";

// The last process of the switch, and the end of its text.
const LAST: &[u8] = b"process ( s0 ) begin\noutp <= s0 ;\nend process ;\nend behaviour ;\n";

// The same of a signal that isn't declared.
const UNDECLARED: &[u8] = b"process ( s1 ) begin\noutp <= s1 ;\nend process ;\nend behaviour ;\n";

// The same, and behind it a second process that assigns the signal.
const TWICE_DRIVEN: &[u8] = b"process ( s0 ) begin\noutp <= s0 ;\nend process ;\n\
process ( inp ) begin\ns0 <= inp ;\nend process ;\nend behaviour ;\n";

fn words(alloc: Global, line: &str) -> Result<Vec<String>, AllocError> {
    let mut words = Vec::new(alloc);
    for text in line.split_whitespace() {
        words.push(String::from_str(alloc, text)?)?;
    }
    Ok(words)
}

// The switch with another end.
fn switch_with(alloc: Global, end: &[u8]) -> Result<Vec<u8>, AllocError> {
    let kept = SWITCH.len().saturating_sub(LAST.len());
    let mut text = SWITCH[..kept].to_vec(alloc)?;
    text.extend_from_slice(end)?;
    Ok(text)
}

#[test]
fn sources_are_checked_as_written(rt: HostRuntime) -> Result<(), Fail> {
    let alloc = rt.alloc();
    let asked = words(alloc, "check a.hs")?;
    for (source, number, line) in [
        (TOGGLE, 0, b"".as_slice()),
        (GUARDED, 1, b"E14 6:1 patterns do not cover\n"),
        (b"import Data.Bits", 1, b"E06 1:1 unknown module\n"),
        (b"import Data.Bits\n", 1, b"E06 1:1 unknown module\n"),
        (
            b"start = (signal True",
            1,
            b"E04 1:9 brackets or blocks do not match\n",
        ),
        (b"", 1, b"E15 1:1 no proper start\n"),
    ] {
        let mut store = MemoryStore::new(alloc, Vec::new(alloc));
        store.place("a.hs", source).map_err(|_| "memory")?;
        let mut out = MemorySink::new(alloc, Vec::new(alloc));
        let mut err = MemorySink::new(alloc, Vec::new(alloc));
        let status = rewire(alloc, &asked, &mut store, &mut out, &mut err);
        assert_eq!(rt; err.bytes(), line);
        assert_eq!(rt; status.number(), number);
        assert_eq!(rt; out.bytes(), b"".as_slice());
    }
    Ok(())
}

#[test]
fn a_source_that_is_missing_is_a_read_fault(rt: HostRuntime) -> Result<(), Fail> {
    let alloc = rt.alloc();
    let mut store = MemoryStore::new(alloc, Vec::new(alloc));
    let mut out = MemorySink::new(alloc, Vec::new(alloc));
    let mut err = MemorySink::new(alloc, Vec::new(alloc));
    let asked = words(alloc, "check missing.hs")?;
    let status = rewire(alloc, &asked, &mut store, &mut out, &mut err);
    assert_eq!(rt; status.number(), 3);
    assert_eq!(rt; err.bytes(), b"read fault\n".as_slice());
    assert_eq!(rt; out.bytes(), b"".as_slice());
    Ok(())
}

#[test]
fn the_switch_with_another_end_is_refused(rt: HostRuntime) -> Result<(), Fail> {
    let alloc = rt.alloc();
    let asked = words(alloc, "sim a t")?;
    for (end, number, shown, line) in [
        (LAST, 0, b"0\n1\n0\n0\n".as_slice(), b"".as_slice()),
        (UNDECLARED, 6, b"", b"V4 name wrongly declared or used\n"),
        (TWICE_DRIVEN, 6, b"", b"V6 not exactly one driver\n"),
    ] {
        let mut store = MemoryStore::new(alloc, Vec::new(alloc));
        store
            .place("a", switch_with(alloc, end)?.as_slice())
            .map_err(|_| "memory")?;
        store.place("t", b"1\n1\n0\n").map_err(|_| "memory")?;
        let mut out = MemorySink::new(alloc, Vec::new(alloc));
        let mut err = MemorySink::new(alloc, Vec::new(alloc));
        let status = rewire(alloc, &asked, &mut store, &mut out, &mut err);
        assert_eq!(rt; err.bytes(), line);
        assert_eq!(rt; status.number(), number);
        assert_eq!(rt; out.bytes(), shown);
    }
    Ok(())
}

#[test]
fn streams_that_fail_hold_a_prefix(rt: HostRuntime) -> Result<(), Fail> {
    let alloc = rt.alloc();
    for (line, number, out_fails, err_fails) in [
        ("sim a t", 4, true, false),
        ("sim a t", 4, true, true),
        ("sim a missing", 3, false, true),
        ("sim missing t", 3, false, true),
    ] {
        let mut store = MemoryStore::new(alloc, Vec::new(alloc));
        store.place("a", SWITCH).map_err(|_| "memory")?;
        store.place("t", b"1\n1\n0\n").map_err(|_| "memory")?;
        let first = |fails: bool| if fails { 0 } else { 9 };
        let mut out = MemorySink::new(alloc, [first(out_fails)].to_vec(alloc)?);
        let mut err = MemorySink::new(alloc, [first(err_fails)].to_vec(alloc)?);
        let asked = words(alloc, line)?;
        let status = rewire(alloc, &asked, &mut store, &mut out, &mut err);
        assert_eq!(rt; status.number(), number);
        assert!(rt; b"0\n1\n0\n0\n".starts_with(out.bytes()));
        assert!(rt; err_fails || err.bytes() == b"write fault\n".as_slice());
        assert!(rt;
            !err_fails
                || b"write fault\n".starts_with(err.bytes())
                || b"read fault\n".starts_with(err.bytes())
        );
    }
    Ok(())
}
