// When a clock rises (IEEE Std 1164-1993, `rising_edge`).
ghost use Rattle.std.specs.Prelude.{◌≡◌, ◌↔◌, ◌⊎◌, IsTrue};
ghost use Rattle.rw_base.specs.declared.bit.Bit9.TheVariants.{Zero, One, L, H};
ghost use Rattle.vh_tree.specs.Bits.{rises_to};

use rw_base::Bit9;

/// Whether a wire that had the value `last`, and has the value `now`, rose: from '0' to '1', each forced or weak.
pub fn rising(last: Bit9, now: Bit9) -> bool
    ensures value { result ≡ rises_to last now }
    ensures exact { IsTrue result ↔ (((last ≡ Zero) ⊎ (last ≡ L)) × ((now ≡ One) ⊎ (now ≡ H))) }
{
    matches!(last, Bit9::Zero | Bit9::L) && matches!(now, Bit9::One | Bit9::H)
}
