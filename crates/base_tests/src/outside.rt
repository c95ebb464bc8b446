// Tests of what no clause says: worked values, and the answers of calls with ample memory.

use rw_base::{
    DeviceError, FileStore, MemorySink, MemoryStore, Name, Place, Rule, Sink, Store, StreamSink,
    Text, VRule, place_of,
};
use std::test::Fail;

#[test]
fn places_follow_lines_tabs_and_characters(rt: HostRuntime) {
    let source = b"a\tb\n\xc3\xa4c\n";
    for (at, line, column) in [
        (0, 1, 1),
        (1, 1, 2),
        (2, 1, 9),
        (4, 2, 1),
        (5, 2, 2),
        (6, 2, 2),
        (8, 3, 1),
    ] {
        assert_eq!(rt; place_of(source, at), Place { line, column }, "at {at}");
    }
}

#[test]
fn a_text_grows_at_its_end(rt: HostRuntime) -> Result<(), Fail> {
    let mut text = Text::new(rt.alloc());
    text.push(b"line ").map_err(|_| "memory")?;
    text.push_number(18_446_744_073_709_551_615)
        .map_err(|_| "memory")?;
    assert_eq!(rt; text.bytes(), b"line 18446744073709551615".as_slice());
    Ok(())
}

#[test]
fn names_are_their_bytes(rt: HostRuntime) -> Result<(), Fail> {
    let name = Name::from_slice(rt.alloc(), b"loop").map_err(|_| "memory")?;
    let copy = name.copied(rt.alloc()).map_err(|_| "memory")?;
    assert_eq!(rt; copy.as_slice(), b"loop".as_slice());
    assert!(rt; name == copy);
    assert!(rt; !name.is(b"lop"));
    Ok(())
}

#[test]
fn rules_have_codes_and_texts(rt: HostRuntime) {
    assert_eq!(rt; Rule::E21.code(), "E21");
    assert_eq!(rt; Rule::E21.text(), "recursion not guarded by a signal");
    assert_eq!(rt; VRule::V6.code(), "V6");
    assert_eq!(rt; VRule::V6.text(), "not exactly one driver");
}

#[test]
fn a_store_in_memory_holds_what_was_saved(rt: HostRuntime) -> Result<(), Fail> {
    let alloc = rt.alloc();
    let mut store = MemoryStore::new(alloc, [3].to_vec(alloc)?);
    store.place("a", b"one").map_err(|_| "memory")?;
    assert!(rt; store.save("b", b"two").is_ok());
    assert!(rt; store.save("a", b"three").is_ok());
    let found = store.load(alloc, "a", 2).map_err(|_| "fault")?;
    assert_eq!(rt; found.as_slice(), b"th".as_slice());
    assert_eq!(rt; store.load(alloc, "a", 2).is_err(), true);
    assert_eq!(rt; store.read("b"), Some(b"two".as_slice()));
    assert_eq!(rt; store.read("c"), None);
    assert_eq!(rt; store.load(alloc, "c", 9).is_err(), true);
    Ok(())
}

#[test]
fn a_sink_in_memory_fails_at_a_listed_put(rt: HostRuntime) -> Result<(), Fail> {
    let alloc = rt.alloc();
    let mut sink = MemorySink::new(alloc, [1].to_vec(alloc)?);
    assert!(rt; sink.put(b"ab").is_ok());
    assert!(rt; sink.put(b"x") == Err(DeviceError::Failed));
    assert!(rt; sink.put(b"c").is_ok());
    assert_eq!(rt; sink.bytes(), b"abc".as_slice());
    Ok(())
}

#[test]
fn a_sink_in_memory_without_failing_puts_keeps_all(rt: HostRuntime) -> Result<(), Fail> {
    let alloc = rt.alloc();
    let mut sink = MemorySink::new(alloc, Vec::new(alloc));
    assert!(rt; sink.put(b"ab").is_ok());
    assert!(rt; sink.put(b"c").is_ok());
    assert_eq!(rt; sink.bytes(), b"abc".as_slice());
    Ok(())
}

#[test]
fn files_are_saved_and_loaded(rt: HostRuntime) -> Result<(), Fail> {
    let mut store = FileStore::new(&rt);
    assert!(rt; store.save("rw_base_test.txt", b"some bytes").is_ok());
    let found = store
        .load(rt.alloc(), "rw_base_test.txt", 6)
        .map_err(|_| "fault")?;
    assert_eq!(rt; found.as_slice(), b"some b".as_slice());
    assert_eq!(rt;
        store
            .load(rt.alloc(), "rw_base_no_such_file.txt", 6)
            .is_err(),
        true
    );
    Ok(())
}

// The first bytes of these, at most so many.
fn first(bytes: &[u8], most: usize) -> &[u8] {
    if most < bytes.len() {
        &bytes[..most]
    } else {
        bytes
    }
}

// Loads at most so many bytes of a file that holds these, and compares.
fn loads_first(rt: &HostRuntime, bytes: &[u8], most: usize) -> Result<bool, Fail> {
    let mut store = FileStore::new(rt);
    let found = store
        .load(rt.alloc(), "rw_base_pieces.txt", most)
        .map_err(|_| "fault")?;
    Ok(found.as_slice() == first(bytes, most))
}

#[test]
fn a_file_of_many_pieces_is_loaded_whole(rt: HostRuntime) -> Result<(), Fail> {
    let mut bytes = Vec::new(rt.alloc());
    for i in 0..10_000_usize {
        bytes.push((i % 251) as u8)?;
    }
    let mut store = FileStore::new(&rt);
    assert!(rt; store.save("rw_base_pieces.txt", &bytes).is_ok());
    assert!(rt; loads_first(&rt, &bytes, 4095)?);
    assert!(rt; loads_first(&rt, &bytes, 4096)?);
    assert!(rt; loads_first(&rt, &bytes, 4097)?);
    assert!(rt; loads_first(&rt, &bytes, 9999)?);
    assert!(rt; loads_first(&rt, &bytes, 10_000)?);
    assert!(rt; loads_first(&rt, &bytes, 10_001)?);
    Ok(())
}

#[test]
fn a_stream_takes_what_is_put(rt: HostRuntime) -> Result<(), Fail> {
    let mut sink = StreamSink::new(Vec::new(rt.alloc()));
    assert!(rt; sink.put(b"line\n").is_ok());
    assert!(rt; sink.put(b"").is_ok());
    assert!(rt; sink.put(b"more\n").is_ok());
    assert_eq!(rt; sink.into_inner().as_slice(), b"line\nmore\n".as_slice());
    Ok(())
}
