// The law, as the contract of a function that does nothing.
ghost use Rattle.std.specs.Prelude.{List};
ghost use Rattle.rw_core.specs.Values.{Val};
ghost use Rattle.rw_core_flat.specs.Programs.{FlatDenotes};
ghost use Rattle.rw_core_layered.specs.Layered.{LayeredProgram, LayeredDenotes};
ghost use Rattle.rw_core_layered.specs.Embedding.{flat_layered};

/// What a layered program denotes, it denotes as a flat program: the two languages agree, and what is said of a layered program as a
/// flat one is said of the same device.
pub fn layered_programs_are_flat()
    ensures { (p : LayeredProgram) (inputs outputs : List Val) → LayeredDenotes p inputs outputs → FlatDenotes (flat_layered p).functions (flat_layered p).system inputs outputs }
{}
