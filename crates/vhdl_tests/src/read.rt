// A text and its answers: worked examples, and what is refused with which rule.

use crate::texts::SWITCH;
use rw_base::VRule;
use std::alloc::{AllocError, Global};
use std::test::Fail;
use vh_tree::{Process, VExpr, VStmt};
use vhdl_read::{VFail, read};

// The last process of the switch, and what stands behind it.
const LAST: &[u8] = b"process ( s0 ) begin\noutp <= s0 ;\nend process ;\nend behaviour ;\n";

// A process that shows the register when the input is 0.
const SHOWS: &[u8] =
    b"process ( inp , s0 ) begin\noutp <= f0 ( inp , s0 ( 0 downto 0 ) ) ;\nend process ;\n";

const END: &[u8] = b"end behaviour ;\n";

// The text of the switch with this in place of its last process.
fn text_with(alloc: Global, last: &[u8]) -> Result<Vec<u8>, AllocError> {
    let (front, _) = SWITCH.split_at(SWITCH.len().saturating_sub(LAST.len()));
    let mut text = front.to_vec(alloc)?;
    text.extend_from_slice(last)?;
    text.extend_from_slice(END)?;
    Ok(text)
}

// What is in the middle, between so many times what is before and behind it.
struct Nest {
    front: &'static [u8],
    before: &'static [u8],
    middle: &'static [u8],
    behind: &'static [u8],
    end: &'static [u8],
}

const CHOICES: Nest = Nest {
    front: b"process ( s0 ) begin\n",
    before: b"if s0 = \"0\" then\n",
    middle: b"outp <= s0 ;\n",
    behind: b"end if ;\n",
    end: b"end process ;\n",
};

const CALLS: Nest = Nest {
    front: b"process ( s0 ) begin\noutp <= ",
    before: b"f0 ( ",
    middle: b"s0 ",
    behind: b", s0 ) ",
    end: b";\nend process ;\n",
};

// The text of the switch with so many levels in its last process.
fn nested(alloc: Global, nest: &Nest, levels: usize) -> Result<Vec<u8>, AllocError> {
    let mut process = nest.front.to_vec(alloc)?;
    for _level in 0..levels {
        process.extend_from_slice(nest.before)?;
    }
    process.extend_from_slice(nest.middle)?;
    for _level in 0..levels {
        process.extend_from_slice(nest.behind)?;
    }
    process.extend_from_slice(nest.end)?;
    text_with(alloc, &process)
}

// Why a text is refused, if it is.
fn refusal(alloc: Global, text: &[u8]) -> Option<VFail> {
    match read(alloc, text) {
        Ok(_) => None,
        Err(fail) => Some(fail),
    }
}

// Whether a process is the one that shows the register.
fn shows(process: &Process) -> bool {
    let [first, second] = process.sensitive.as_slice() else {
        return false;
    };
    let [VStmt::Assign(target, VExpr::Call(function, arguments))] = process.body.as_slice() else {
        return false;
    };
    let [VExpr::Name(name), VExpr::Slice(sliced, 0, 0)] = arguments.as_slice() else {
        return false;
    };
    first.is(b"inp")
        && second.is(b"s0")
        && target.is(b"outp")
        && function.is(b"f0")
        && name.is(b"inp")
        && sliced.is(b"s0")
}

// Whether a text is read, as a design of the register's size with its last process.
fn is_switch(alloc: Global, text: &[u8]) -> bool {
    let Ok(design) = read(alloc, text) else {
        return false;
    };
    let [_, last] = design.processes.as_slice() else {
        return false;
    };
    design.inp == 1 && design.outp == 1 && design.items.len() == 2 && shows(last)
}

#[test]
fn two_state_switch(rt: HostRuntime) -> Result<(), Fail> {
    let alloc = rt.alloc();
    let mut text = text_with(alloc, SHOWS)?;
    assert!(rt; is_switch(alloc, &text));
    let capitals = text.to_ascii_uppercase(alloc)?;
    assert!(rt; is_switch(alloc, &capitals));
    text.extend_from_slice(b"\r-- a comment that no LF ends")?;
    assert!(rt; is_switch(alloc, &text));
    Ok(())
}

#[test]
fn texts_refused(rt: HostRuntime) -> Result<(), Fail> {
    let alloc = rt.alloc();
    let table: [(&[u8], VRule); 9] = [
        (b"-- \xc8\n", VRule::V1),
        (
            b"process ( s0 ) begin outp_ <= s0 ; end process ;",
            VRule::V2,
        ),
        (
            b"process ( s0 ) begin outp <= s0 ( 2147483648 downto 0 ) ; end process ;",
            VRule::V2,
        ),
        (b"process ( s0 ) begin outp <= s0 ; end process ", VRule::V3),
        (
            b"process ( s0 ) begin outp <= f0 ( inp , s1 ) ; end process ;",
            VRule::V4,
        ),
        (
            b"process ( s0 ) begin outp <= \"00\" ; end process ;",
            VRule::V5,
        ),
        (
            b"process ( s0 ) begin outp <= s0 ; end process ; process ( s0 ) begin outp <= s0 ; end process ;",
            VRule::V6,
        ),
        (b"", VRule::V6),
        (
            b"process ( s0 ) begin outp <= f0 ( inp , s1 ) ; end process ; )",
            VRule::V3,
        ),
    ];
    for (last, rule) in table {
        let text = text_with(alloc, last)?;
        assert_eq!(rt; refusal(alloc, &text), Some(VFail::Refused(rule)));
    }
    Ok(())
}

// A text that is cut anywhere but before its last byte, a line feed, is refused.
#[test]
fn prefixes_refused(rt: HostRuntime) -> Result<(), Fail> {
    let alloc = rt.alloc();
    let text = text_with(alloc, SHOWS)?;
    for n in 0..text.len().saturating_sub(1) {
        let (front, _) = text.split_at(n);
        let fail = refusal(alloc, front);
        assert!(rt; matches!(fail, Some(VFail::Refused(VRule::V2 | VRule::V3))));
    }
    Ok(())
}

#[test]
fn levels_up_to_the_bound(rt: HostRuntime) -> Result<(), Fail> {
    let alloc = rt.alloc();
    let table: [(usize, Option<VFail>); 2] = [
        (4096, None),
        (4097, Some(VFail::Refused(VRule::V3))),
    ];
    for (levels, fail) in table {
        for nest in [&CHOICES, &CALLS] {
            let text = nested(alloc, nest, levels)?;
            assert_eq!(rt; refusal(alloc, &text), fail);
        }
    }
    Ok(())
}
