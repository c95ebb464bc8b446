// Two small passes made one.
ghost use Rattle.std.specs.Prelude.{◌≡◌, ◌<◌};

use rw_base::OutOfMemory;
use rw_pass::{Denotes, Pass, Then};
use std::alloc::Global;

/// A wire of one bit with buffers on it, which shows its inputs.
#[derive(Drop)]
struct Wire {
    buffers: u32,
}

impl Denotes for Wire {
    ghost denotes = { λ _ inputs outputs. outputs ≡ inputs };

    ghost in_width = { λ _. 1 };

    ghost out_width = { λ _. 1 };

    ghost size = { λ wire. wire.buffers };

    ghost is_fit = { λ wire. 0 < wire.buffers };
}

/// Takes half of the buffers away, rounded down, but for the last.
struct Halve;

/// Takes one buffer away, but for the last.
struct Spare;

impl Pass for Halve {
    type In = Wire;

    type Out = Wire;

    fn run(&self, _alloc: Global, input: &Wire) -> Result<Wire, OutOfMemory> {
        Ok(Wire {
            buffers: input.buffers - input.buffers / 2,
        })
    }
}

impl Pass for Spare {
    type In = Wire;

    type Out = Wire;

    fn run(&self, _alloc: Global, input: &Wire) -> Result<Wire, OutOfMemory> {
        Ok(Wire {
            buffers: if input.buffers > 1 {
                input.buffers - 1
            } else {
                1
            },
        })
    }
}

#[test]
fn two_passes_run_one_after_the_other(rt: HostRuntime) -> Result<(), OutOfMemory> {
    let wire = Wire { buffers: 9 };
    let halved = Then {
        first: Halve,
        second: Spare,
    }
    .run(rt.alloc(), &wire)?;
    assert_eq!(rt; halved.buffers, 4);
    Ok(())
}
