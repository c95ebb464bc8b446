// The nodes whose search is under way. Contracts see the latest first.
ghost use Rattle.std.specs.Prelude.{◌≡◌, ◌∷◌, [], OnOk, MatchOption};

use rw_base::OutOfMemory;
use std::alloc::Global;
use std::marker::Model;

// A node, and how many of those that it waits for, from the first on, are known to be free.
#[derive(Clone, Copy)]
pub struct Frame {
    pub node: usize,
    pub done: usize,
}

// Frames, the last of which is taken first.
#[derive(Drop)]
pub struct Stack {
    frames: Vec<Frame>,
}

impl Model for Stack {
    ghost use Rattle.std.specs.Prelude.{List, reverse};
    ghost use Rattle.rw_scope_graph.specs.declared.stack.Frame.{Frame};

    ghost Value = { List Frame };

    ghost view = { λ stack. reverse stack.frames.items };
}

impl Stack {
    pub fn new(alloc: Global) -> Stack
        ensures { result ≡ [] }
    {
        Stack {
            frames: Vec::new(alloc),
        }
    }

    pub fn push(&mut self, frame: Frame) -> Result<(), OutOfMemory>
        ensures { OnOk result (self.new ≡ frame ∷ self.old) }
    {
        self.frames.push(frame)?;
        Ok(())
    }

    pub fn pop(&mut self) -> Option<Frame>
        ensures { MatchOption result ((self.old ≡ []) × (self.new ≡ [])) (λ frame. self.old ≡ frame ∷ self.new) }
    {
        self.frames.pop()
    }

    pub fn clear(&mut self)
        ensures { self.new ≡ [] }
    {
        self.frames.clear();
    }
}
