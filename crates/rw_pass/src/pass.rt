// What stages of the compiler mean, and the one law by which proved passes compose.
ghost use Rattle.std.specs.Prelude.{◌≡◌, ◌≤◌, ℕ, List, IfOk};
ghost use Rattle.rw_base.specs.declared.bit.Bit9.{Bit9};
ghost use Rattle.rw_pass.specs.Passes.{Meaning, KeepsMeaning};

use rw_base::OutOfMemory;
use std::alloc::Global;

/// A representation of devices, with its four meanings.
///
/// `denotes` relates a list of input bit lists to a list of output bit lists, `in_width` and `out_width` are the
/// widths of its ports in bits, `size` is a count of its parts, and `is_fit` says that its invariant holds.
pub trait Denotes {
    ghost denotes: { Self → Meaning };

    ghost in_width: { Self → ℕ };

    ghost out_width: { Self → ℕ };

    ghost size: { Self → ℕ };

    ghost is_fit: { Self → Type 0 };
}

/// A pass from one representation to the next. It keeps what a device denotes and the widths of its ports, makes
/// nothing larger, and gives what the next pass needs. The only refusal is want of memory.
pub trait Pass {
    type In: Denotes;

    type Out: Denotes + Drop;

    /// The representation that this pass makes of `input`, which is fit.
    fn run(&self, alloc: Global, input: &Self::In) -> Result<Self::Out, OutOfMemory>
        requires { Self.In.is_fit input.now }
        ensures meaning { IfOk result (λ out. KeepsMeaning (Self.In.denotes input.now) (Self.Out.denotes out)) }
        ensures in_width { IfOk result (λ out. Self.Out.in_width out ≡ Self.In.in_width input.now) }
        ensures out_width { IfOk result (λ out. Self.Out.out_width out ≡ Self.In.out_width input.now) }
        ensures size { IfOk result (λ out. Self.Out.size out ≤ Self.In.size input.now) }
        ensures fit { IfOk result (λ out. Self.Out.is_fit out) };
}

/// Two passes, one after the other. It is a pass, whatever the two are.
#[derive(Drop)]
pub struct Then<P, Q> {
    pub first: P,
    pub second: Q,
}

impl<P: Pass, Q: Pass<In = P::Out>> Pass for Then<P, Q> {
    type In = P::In;

    type Out = Q::Out;

    fn run(&self, alloc: Global, input: &P::In) -> Result<Q::Out, OutOfMemory> {
        let between = self.first.run(alloc, input)?;
        self.second.run(alloc, &between)
    }
}
