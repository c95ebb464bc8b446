// What is still to be done. Contracts see the next task first.
ghost use Rattle.std.specs.Prelude.{◌≡◌, ◌∷◌, ◌++◌, [], map, OnOk, MatchOption};
ghost use Rattle.specialise_tables.specs.declared.stack.Task.TheVariants as task;

use rw_base::OutOfMemory;
use std::alloc::Global;
use std::marker::Model;

// The type with this number is to be seen, or goes into the table.
#[derive(Clone, Copy)]
pub enum Task {
    See(u32),
    Put(u32),
}

// Tasks, the last of which is done first.
#[derive(Drop)]
pub struct Stack {
    tasks: Vec<Task>,
}

impl Model for Stack {
    ghost use Rattle.std.specs.Prelude.{List, reverse};
    ghost use Rattle.specialise_tables.specs.declared.stack.Task.{Task};

    ghost Value = { List Task };

    ghost view = { λ stack. reverse stack.tasks.items };
}

impl Stack {
    pub fn new(alloc: Global) -> Stack
        ensures { result ≡ [] }
    {
        Stack {
            tasks: Vec::new(alloc),
        }
    }

    pub fn push(&mut self, task: Task) -> Result<(), OutOfMemory>
        ensures { OnOk result (self.new ≡ task ∷ self.old) }
    {
        self.tasks.push(task)?;
        Ok(())
    }

    // These types are to be seen, the first of them next.
    pub fn see(&mut self, numbers: &[u32]) -> Result<(), OutOfMemory>
        ensures { OnOk result (self.new ≡ map task.See numbers.now ++ self.old) }
    {
        for i in 0..numbers.len() {
            self.push(Task::See(numbers[numbers.len() - 1 - i]))?;
        }
        Ok(())
    }

    pub fn pop(&mut self) -> Option<Task>
        ensures { MatchOption result ((self.old ≡ []) × (self.new ≡ [])) (λ task. self.old ≡ task ∷ self.new) }
    {
        self.tasks.pop()
    }
}
