// A declared name of a design: contracts see the list of its bytes, in lower case.
ghost use Rattle.std.specs.Prelude.{◌≡◌, ◌↔◌, IsTrue, IfOk};

use rw_base::OutOfMemory;
use std::alloc::Global;
use std::marker::Model;

/// The bytes of a declared name, or `inp`, `outp`, `clk` or `rst` where a port stands. Capital letters are never
/// among them: the case of a word doesn't matter in VHDL (IEEE Std 1076-1993, section 13.3), and is not kept.
#[derive(Debug, Drop)]
pub struct Ident {
    bytes: Vec<u8>,
}

impl Model for Ident {
    ghost use Rattle.std.specs.Prelude.{List, ℕ};

    ghost Value = { List ℕ };

    ghost view = { λ ident. ident.bytes.items };
}

impl Ident {
    /// The name with these bytes.
    pub fn from_slice(alloc: Global, bytes: &[u8]) -> Result<Ident, OutOfMemory>
        ensures { IfOk result (λ ident. ident ≡ bytes.now) }
    {
        let bytes = Vec::from_slice(alloc, bytes)?;
        Ok(Ident { bytes })
    }

    /// The bytes of the name.
    pub fn as_slice(&self) -> &[u8]
        ensures { result.now ≡ self.now }
    {
        self.bytes.as_slice()
    }

    /// The same name again.
    pub fn copied(&self, alloc: Global) -> Result<Ident, OutOfMemory>
        ensures { IfOk result (λ ident. ident ≡ self.now) }
    {
        Ident::from_slice(alloc, self.as_slice())
    }

    /// Whether the name has these bytes.
    pub fn is(&self, bytes: &[u8]) -> bool
        ensures { IsTrue result ↔ (self.now ≡ bytes.now) }
    {
        self.as_slice() == bytes
    }
}
