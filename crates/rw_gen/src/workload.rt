// A source of the workload, and the inputs that it is run on.
ghost use Rattle.std.specs.Prelude.{◌≡◌, ◌≤◌, IfOk};
ghost use Rattle.rw_gen.specs.Workload.{source_text, input_list};

use crate::draws::{draw_below, generator};
use crate::lines::{push_device, push_signature, push_states};
use rw_base::OutOfMemory;
use std::alloc::Global;

/// How many inputs a source is run on.
const INPUTS: u32 = 1000;

/// The source with `size` states, from 1 to 1,024, for this number: one device for each state, which shows it, and
/// goes on with one of two devices that were drawn for it.
pub fn source(alloc: Global, number: u64, size: u32) -> Result<Vec<u8>, OutOfMemory>
    requires some { 1 ≤ size }
    requires few { size ≤ 1024 }
    ensures { IfOk result (λ text. text.items ≡ source_text number size) }
{
    let mut text = Vec::new(alloc);
    push_states(&mut text, size)?;
    text.extend_from_slice(b"start :: ReT Bool S I ()\nstart = d0\n")?;
    let mut rng = generator(number);
    for device in 0..size {
        let on_false = draw_below(&mut rng, size);
        let on_true = draw_below(&mut rng, size);
        push_signature(&mut text, device)?;
        push_device(&mut text, device, on_false, on_true)?;
    }
    Ok(text)
}

/// The 1,000 inputs that the source with `size` states for this number is run on: draws of one bit each, which come
/// after the draws of the source.
pub fn inputs(alloc: Global, number: u64, size: u32) -> Result<Vec<bool>, OutOfMemory>
    requires some { 1 ≤ size }
    requires few { size ≤ 1024 }
    ensures { IfOk result (λ inputs. inputs.items ≡ input_list number size) }
{
    let mut rng = generator(number);
    rng.advance(2 * u64::from(size));
    let mut inputs = Vec::new(alloc);
    for _ in 0..INPUTS {
        inputs.push(draw_below(&mut rng, 2) == 1)?;
    }
    Ok(inputs)
}
