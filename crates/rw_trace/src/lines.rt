// From the bytes of a trace to the bits of its lines.
ghost use Rattle.std.specs.Prelude.{◌≡◌, ◌≢◌, ◌∷◌, [], ◌<◌, ◌≤◌, map, length, take, drop, nat_eq, true, IfOk, MatchOption, None, Some};
ghost use Rattle.std.specs.List.{list_all};
ghost use Rattle.rw_trace.specs.Traces.{Answers, most_lines, trace_of, lines_of, line_read, ends_in, front_of, characters, is_bit, bits_of};

use crate::TraceFail;
use rw_base::OutOfMemory;
use std::alloc::Global;

// How many bytes and how many lines a trace has, at most.
const MOST_BYTES: usize = 16_777_216;

const MOST_LINES: u32 = 1_048_576;

// How many bytes the first line of a text has, with its LF.
#[tactic(auto, using(crate::proofs::Cutting::lines_of_line, crate::proofs::Cutting::lines_of_last))]
fn line_length(bytes: &[u8]) -> usize
    requires { bytes.now ≢ [] }
    ensures within { result ≤ length bytes.now }
    ensures some { 0 < result }
    ensures lines { lines_of bytes.now ≡ take result bytes.now ∷ lines_of (drop result bytes.now) }
{
    for at in 0..bytes.len() {
        if bytes[at] == b'\n' {
            return at + 1;
        }
    }
    bytes.len()
}

// Whether a byte is the last of these.
fn is_last(bytes: &[u8], byte: u8) -> bool
    ensures { result ≡ ends_in byte bytes.now }
{
    bytes[bytes.len().saturating_sub(1)..] == [byte]
}

// All but the last.
fn front(bytes: &[u8]) -> &[u8]
    ensures { result.now ≡ front_of bytes.now }
{
    &bytes[..bytes.len().saturating_sub(1)]
}

// A line without its end.
fn characters_of(line: &[u8]) -> &[u8]
    ensures { result.now ≡ characters line.now }
{
    if !is_last(line, b'\n') {
        return line;
    }
    let front_part = front(line);
    if is_last(front_part, b'\r') {
        front(front_part)
    } else {
        front_part
    }
}

// Whether a byte is `0` or `1`.
fn is_bit_byte(byte: u8) -> bool
    ensures { result ≡ is_bit byte }
{
    byte == b'0' || byte == b'1'
}

fn are_bits(characters: &[u8]) -> bool
    ensures { result ≡ list_all is_bit characters.now }
{
    characters.iter().all(|b| is_bit_byte(*b))
}

// The bits of characters, each of which is `0` or `1`.
fn bits(alloc: Global, characters: &[u8]) -> Result<Vec<bool>, OutOfMemory>
    ensures { IfOk result (λ bits. bits.items ≡ map (nat_eq 49) characters.now) }
{
    let mut bits = Vec::new(alloc);
    for byte in characters {
        bits.push(*byte == b'1')?;
    }
    Ok(bits)
}

// The bits of the line of this number, whose last byte has that number; None where it is refused.
fn read_line(
    alloc: Global,
    line: &[u8],
    number: u32,
    last: usize,
    width: u32,
) -> Result<Option<Vec<bool>>, OutOfMemory>
    ensures read { IfOk result (λ bits. MatchOption bits (line_read width number last line.now ≡ None) (λ found. line_read width number last line.now ≡ Some found.items)) }
    ensures few { IfOk result (λ bits. MatchOption bits (Unit {0}) (λ _. number ≤ 1048576)) }
    ensures wide { IfOk result (λ bits. MatchOption bits (Unit {0}) (λ found. length found.items ≡ width)) }
{
    let characters = characters_of(line);
    if number > MOST_LINES
        || last > MOST_BYTES
        || characters.len() != width as usize
        || !are_bits(characters)
    {
        return Ok(None);
    }
    Ok(Some(bits(alloc, characters)?))
}

/// The bits of each line of a trace whose lines have `width` characters, `0` or `1`. A line ends with LF or at the end
/// of the trace; a CR just before an LF is dropped. It is refused with the number of the first line, counted from 1,
/// that isn't of this form, of which a byte lies past the first 16,777,216 bytes, or that is past the first 1,048,576
/// lines; the LF and a dropped CR are bytes of their line.
pub fn to_bits(alloc: Global, bytes: &[u8], width: u32) -> Result<Vec<Vec<bool>>, TraceFail>
    ensures answers { Answers (λ lines. map (λ bits. bits.items) lines.items) result (trace_of width bytes.now) }
    // Each line has so many bits, and there are at most so many lines.
    ensures widths { IfOk result (λ lines. list_all (λ bits. nat_eq (length bits.items) width) lines.items ≡ true) }
    ensures few { IfOk result (λ lines. length lines.items ≤ most_lines) }
{
    let mut lines = Vec::new(alloc);
    let mut rest = bytes;
    let mut number = 1;
    while !rest.is_empty() {
        let (line, later) = rest.split_at(line_length(rest));
        match read_line(alloc, line, number, bytes.len() - later.len(), width)? {
            None => return Err(TraceFail::BadLine(number)),
            Some(bits) => lines.push(bits)?,
        }
        number += 1;
        rest = later;
    }
    Ok(lines)
}
