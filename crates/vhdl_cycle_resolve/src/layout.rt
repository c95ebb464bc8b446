// Places of names, one after another.
ghost use Rattle.std.specs.Prelude.{◌≡◌, [], ◌∷◌, ◌++◌, IfOk, OnOk};
ghost use Rattle.vh_tree.specs.StaticRules.{declared_signals, parameter_vars, process_vars};
ghost use Rattle.vhdl_cycle_flat.specs.Resolving.{frame_vars};
ghost use Rattle.vhdl_cycle_resolve.specs.Laid.{IsLaid, AreSlotsOf};

use crate::sized::sum;
use rw_base::OutOfMemory;
use rw_base_tables::Table;
use std::alloc::Global;
use vh_tree::{Design, Function, Ident, Item, Var};
use vhdl_cycle_flat::Slot;

// The places of names, how many names there are, and how many bits they have together. The first of a name counts.
#[derive(Drop)]
pub struct Layout {
    pub slots: Table<Slot>,
    pub count: u32,
    pub bits: u32,
}

// The places of a design's ports and signals.
pub fn wires_of(alloc: Global, design: &Design) -> Result<Layout, OutOfMemory>
    ensures { IfOk result (λ l. AreSlotsOf (process_vars design.now) l) }
{
    let mut layout = Layout::new(alloc);
    layout.add(alloc, b"clk", 1)?;
    layout.add(alloc, b"rst", 1)?;
    layout.add(alloc, b"inp", design.inp)?;
    layout.add(alloc, b"outp", design.outp)?;
    layout.add_signals(alloc, design.items.as_slice())?;
    Ok(layout)
}

// The places of a function's parameters and variables.
pub fn frame_of(alloc: Global, function: &Function) -> Result<Layout, OutOfMemory>
    ensures { IfOk result (λ l. AreSlotsOf (frame_vars function.now) l) }
{
    let mut layout = Layout::new(alloc);
    let vars = function.vars.as_slice();
    layout.add_params(alloc, function.params.as_slice(), vars)?;
    layout.add_vars(alloc, vars)?;
    Ok(layout)
}

impl Layout {
    // No names.
    fn new(alloc: Global) -> Layout
        ensures { AreSlotsOf [] result }
    {
        Layout {
            slots: Table::new(alloc),
            count: 0,
            bits: 0,
        }
    }

    // One more name, behind the others.
    fn add(&mut self, alloc: Global, name: &[u8], width: u32) -> Result<(), OutOfMemory>
        ensures { OnOk result (IsLaid self.old (record { name = name.now; width = width } ∷ []) self.new) }
    {
        let count = sum(self.count, 1)?;
        let bits = sum(self.bits, width)?;
        if !self.slots.has(name) {
            let slot = Slot {
                number: self.count,
                from: self.bits,
                len: width,
            };
            self.slots.put(alloc, name, slot)?;
        }
        self.count = count;
        self.bits = bits;
        Ok(())
    }

    fn add_vars(&mut self, alloc: Global, vars: &[Var]) -> Result<(), OutOfMemory>
        ensures { OnOk result (IsLaid self.old vars.now self.new) }
    {
        for var in vars {
            self.add(alloc, var.name.as_slice(), var.width)?;
        }
        Ok(())
    }

    // The parameters, each as wide as the variable that it is put into.
    fn add_params(
        &mut self,
        alloc: Global,
        params: &[Ident],
        vars: &[Var],
    ) -> Result<(), OutOfMemory>
        ensures { OnOk result (IsLaid self.old (parameter_vars params.now vars.now) self.new) }
    {
        for i in 0..params.len().min(vars.len()) {
            self.add(alloc, params[i].as_slice(), vars[i].width)?;
        }
        Ok(())
    }

    fn add_signals(&mut self, alloc: Global, items: &[Item]) -> Result<(), OutOfMemory>
        ensures { OnOk result (IsLaid self.old (declared_signals items.now) self.new) }
    {
        for item in items {
            match item {
                Item::Signal(signal) => self.add(alloc, signal.name.as_slice(), signal.width)?,
                Item::Function(_) => (),
            }
        }
        Ok(())
    }
}
