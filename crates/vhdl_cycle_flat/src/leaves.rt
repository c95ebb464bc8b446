// Parts of flat buffers: read, compared, copied and put.
ghost use Rattle.std.specs.Prelude.{◌≡◌, ◌≤◌, ◌+◌, ◌++◌, length, vec_len, vec_capacity, replicate, take, drop};
ghost use Rattle.vh_tree.specs.Bits.{same_bits, slice_of};
ghost use Rattle.vhdl_cycle_flat.specs.Flat.{part_of, written, entered, has_bit};
ghost use Rattle.rw_base.specs.declared.bit.Bit9.TheVariants.{U};

use crate::Bit;
use rw_base::Bit9;

pub fn part(frame: &[Bit9], from: u32, len: u32) -> &[Bit9]
    ensures { result.now ≡ part_of from len frame.now }
{
    let rest = &frame[frame.len().min(from as usize)..];
    &rest[..rest.len().min(len as usize)]
}

// Appends bits where there is room for them. One by one: what std says of a whole slice leaves open whether the room grows.
pub fn append(out: &mut Vec<Bit9>, bits: &[Bit9])
    requires { vec_len out.old + length bits.now ≤ vec_capacity out.old }
    ensures value { out.new.items ≡ out.old.items ++ bits.now }
    ensures capacity { vec_capacity out.new ≡ vec_capacity out.old }
{
    for bit in bits {
        out.push_reserved(*bit);
    }
}

pub fn equal(a: &[Bit9], b: &[Bit9]) -> bool
    ensures { result ≡ same_bits a.now b.now }
{
    match (a, b) {
        ([x], [y]) => x == y,
        _ => a == b,
    }
}

pub fn bit_holds(bit: Bit, frame: &[Bit9]) -> bool
    ensures { result ≡ has_bit bit frame.now }
{
    let bits = slice(part(frame, bit.from, bit.len), bit.place, bit.place);
    equal(bits, &[bit.value])
}

pub fn put(frame: &mut [Bit9], from: u32, bits: &[Bit9])
    ensures { frame.new ≡ written from bits.now frame.old }
{
    let start = frame.len().min(from as usize);
    if let [bit] = bits {
        if start < frame.len() {
            frame[start] = *bit;
        }
        return;
    }
    let (_, rest) = frame.split_at_mut(start);
    let len = rest.len().min(bits.len());
    let (place, _) = rest.split_at_mut(len);
    place.copy_from_slice(&bits[..len]);
}

/// Copies a part of a frame to another place in it.
pub fn copy(frame: &mut [Bit9], from: u32, source: u32, len: u32)
    ensures { frame.new ≡ written from (part_of source len frame.old) frame.old }
{
    let start = frame.len().min(from as usize);
    let first = frame.len().min(source as usize);
    let len = (frame.len() - first)
        .min(len as usize)
        .min(frame.len() - start);
    frame.copy_within(first..first + len, start);
}

pub fn enter(frame: &mut [Bit9], args: &[Bit9])
    ensures { frame.new ≡ entered (length frame.old) args.now }
{
    let len = frame.len().min(args.len());
    let (params, vars) = frame.split_at_mut(len);
    params.copy_from_slice(&args[..len]);
    all_u(vars);
}

fn all_u(vars: &mut [Bit9])
    ensures { vars.new ≡ replicate (length vars.old) U }
{
    for v in vars.iter_mut() {
        *v = Bit9::U;
    }
}

pub fn slice(bits: &[Bit9], high: u32, low: u32) -> &[Bit9]
    ensures { result.now ≡ slice_of high low bits.now }
{
    let end = high as usize + 1;
    let rest = &bits[bits.len().saturating_sub(end)..];
    &rest[..rest.len().min(end.saturating_sub(low as usize))]
}

pub fn cut(out: &mut Vec<Bit9>, start: usize, high: u32, low: u32)
    requires { start ≤ vec_len out.old }
    ensures value { out.new.items ≡ take start out.old.items ++ slice_of high low (drop start out.old.items) }
    ensures capacity { vec_capacity out.new ≡ vec_capacity out.old }
{
    let end = high as usize + 1;
    let first = start + (out.len() - start).saturating_sub(end);
    let len = (out.len() - first).min(end.saturating_sub(low as usize));
    out.copy_within(first..first + len, start);
    out.truncate(start + len);
}
