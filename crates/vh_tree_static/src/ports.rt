// V8: the ports are narrow enough.
ghost use Rattle.std.specs.Prelude.{◌≡◌, not};
ghost use Rattle.vh_tree.specs.StaticRules.{breaks_ports};

use vh_tree::Design;

// How many wires a port may have.
const MAX_PORT: u32 = 1024;

// Whether both ports keep to the bound.
pub fn ports_keep(design: &Design) -> bool
    ensures { not result ≡ breaks_ports design.now }
{
    design.inp <= MAX_PORT && design.outp <= MAX_PORT
}
