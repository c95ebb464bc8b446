// Counts that stand still at a bound.
ghost use Rattle.std.specs.Prelude.{◌≡◌, ◌≤◌, min, suc};

// One frame more.
pub fn one_more(bound: usize, frames: usize) -> usize
    ensures { result ≡ min bound (suc frames) }
{
    if frames < bound { frames + 1 } else { bound }
}
