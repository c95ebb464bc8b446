// What is done at one token: the parts of the rule, each with what it emits and the stack that it leaves.
ghost use Rattle.std.specs.Prelude.{◌≡◌, ◌++◌, ◌∷◌, [], IfOk, OnOk};
ghost use Rattle.std.specs.Option.{option_map};
ghost use Rattle.rw_base.specs.Answers.{Answers};
ghost use Rattle.rw_layout.specs.Layout as spec;
ghost use Rattle.rw_layout.specs.Steps.{Leaves, laid, so_far, turn_behind};
ghost use Rattle.rw_layout.specs.declared.role.Before.TheVariants as b;

use crate::entry::{has_parts_at, is_let_block, is_let_brace, is_opener, known_as};
use crate::role::role_of;
use crate::stack::{Run, Stack, broken_at};
use crate::{Before, Entry, Opener, Role};
use rw_base::{Fail, Name, OutOfMemory, Place};
use rw_lex::{Token, TokenKind};
use std::alloc::Global;

/// What was done so far.
#[derive(Drop)]
pub struct Layout {
    /// The tokens with what was inserted.
    pub out: Vec<Token>,
    /// What the last token asks of the next one.
    pub before: Before,
    /// The blocks and openers around the next token.
    pub stack: Stack,
}

// The same token again.
fn copied(alloc: Global, token: &Token) -> Result<Token, OutOfMemory>
    ensures { IfOk result (λ copy. copy ≡ token.now) }
{
    let text = token.text.copied(alloc)?;
    Ok(Token {
        kind: token.kind,
        text,
        at: token.at,
        first: token.first,
    })
}

impl Layout {
    /// The state before the first token. It takes no memory.
    pub fn new(alloc: Global) -> Layout
        ensures out { result.out.items ≡ [] }
        ensures before { result.before ≡ b.Nothing }
        ensures stack { result.stack ≡ [] }
    {
        Layout {
            out: Vec::new(alloc),
            before: Before::Nothing,
            stack: Stack::new(alloc),
        }
    }

    // Inserts a brace or a semicolon.
    fn insert(&mut self, alloc: Global, text: &[u8], at: Place) -> Result<(), OutOfMemory>
        ensures out { OnOk result (self.new.out.items ≡ self.old.out.items ++ spec.inserted text.now at ∷ []) }
        ensures stack { OnOk result (self.new.stack ≡ self.old.stack) }
        ensures before { OnOk result (self.new.before ≡ self.old.before) }
    {
        let text = Name::from_slice(alloc, text)?;
        self.out.push(Token {
            kind: TokenKind::Special,
            text,
            at,
            first: false,
        })?;
        Ok(())
    }

    // Closes so many blocks on top.
    fn close(&mut self, alloc: Global, n: usize, at: Place) -> Result<(), OutOfMemory>
        ensures out { OnOk result (self.new.out.items ≡ self.old.out.items ++ (spec.close n at self.old.stack).0) }
        ensures stack { OnOk result (self.new.stack ≡ (spec.close n at self.old.stack).1) }
        ensures before { OnOk result (self.new.before ≡ self.old.before) }
    {
        for _ in 0..n {
            self.insert(alloc, b"}".as_slice(), at)?;
        }
        self.stack.pop(n);
        Ok(())
    }

    // Line starts: closes the blocks that are deeper than the column, and puts `;` between the parts of one that begins there.
    fn start_line(&mut self, alloc: Global, at: Place) -> Result<(), OutOfMemory>
        ensures out { OnOk result (self.new.out.items ≡ self.old.out.items ++ (spec.line_start at self.old.stack).0) }
        ensures stack { OnOk result (self.new.stack ≡ (spec.line_start at self.old.stack).1) }
        ensures before { OnOk result (self.new.before ≡ self.old.before) }
    {
        let deeper = self.stack.run_len(Run::Deeper(at.column));
        let parts = has_parts_at(at, self.stack.get(deeper));
        self.close(alloc, deeper, at)?;
        if parts {
            self.insert(alloc, b";".as_slice(), at)?;
        }
        Ok(())
    }

    // The same, if the token counts as the first of its line; never for `in`.
    fn at_line_start(
        &mut self,
        alloc: Global,
        first: bool,
        role: Role,
        at: Place,
    ) -> Result<(), OutOfMemory>
        ensures out { OnOk result (self.new.out.items ≡ self.old.out.items ++ (spec.at_line_start first role at self.old.stack).0) }
        ensures stack { OnOk result (self.new.stack ≡ (spec.at_line_start first role at self.old.stack).1) }
        ensures before { OnOk result (self.new.before ≡ self.old.before) }
    {
        match role {
            Role::In => Ok(()),
            _ if first => self.start_line(alloc, at),
            _ => Ok(()),
        }
    }

    // Opens the block that begins at a token, or an empty one before it.
    fn open_block(&mut self, alloc: Global, of_let: bool, role: Role, at: Place) -> Result<(), Fail>
        ensures step { Leaves result at (laid self.new) (option_map (spec.before_step self.old.out.items) (spec.open_block of_let role at self.old.stack)) }
        ensures before { OnOk result (self.new.before ≡ self.old.before) }
    {
        if self.stack.enclosing() < at.column {
            self.stack.push(Entry::Block(at.column, of_let), at)?;
            self.insert(alloc, b"{".as_slice(), at)?;
        } else {
            self.insert(alloc, b"{".as_slice(), at)?;
            self.insert(alloc, b"}".as_slice(), at)?;
            self.at_line_start(alloc, true, role, at)?;
        }
        Ok(())
    }

    // What is inserted on account of where a token stands.
    fn place(&mut self, alloc: Global, role: Role, token: &Token) -> Result<(), Fail>
        ensures step { Leaves result token.now.at (laid self.new) (option_map (spec.before_step self.old.out.items) (spec.placed_as (spec.opened self.old.before role) role token.now self.old.stack)) }
        ensures before { OnOk result (self.new.before ≡ self.old.before) }
    {
        match self.before.opens(role) {
            Some(of_let) => self.open_block(alloc, of_let, role, token.at),
            None => {
                self.at_line_start(alloc, token.first, role, token.at)?;
                Ok(())
            }
        }
    }

    // Closes the blocks above the opener that is wanted, and pops it; `then` opens anew.
    fn close_to(&mut self, alloc: Global, opener: Opener, at: Place) -> Result<(), Fail>
        ensures step { Leaves result at (laid self.new) (option_map (spec.before_step self.old.out.items) (spec.close_to opener at self.old.stack)) }
        ensures before { OnOk result (self.new.before ≡ self.old.before) }
    {
        let blocks = self.stack.run_len(Run::Blocks);
        if !is_opener(opener, self.stack.get(blocks)) {
            return Err(broken_at(at));
        }
        self.close(alloc, blocks, at)?;
        self.stack.leave(opener, at)?;
        Ok(())
    }

    // How many blocks a comma closes.
    fn closed_by_comma(&self) -> usize
        ensures { result ≡ spec.closed_by_comma self.now.stack }
    {
        let blocks = self.stack.run_len(Run::Blocks);
        if is_opener(Opener::Paren, self.stack.get(blocks)) {
            blocks
        } else {
            0
        }
    }

    // How many blocks `in` closes.
    fn closed_by_in(&self) -> usize
        ensures { result ≡ spec.closed_by_in self.now.stack }
    {
        let plain = self.stack.run_len(Run::Plain);
        if is_let_block(self.stack.get(plain)) {
            plain + 1
        } else {
            0
        }
    }

    // What is inserted on account of what a token is.
    fn act(&mut self, alloc: Global, role: Role, at: Place) -> Result<(), Fail>
        ensures { Leaves result at (laid self.new) (option_map (spec.before_step self.old.out.items) (spec.acted role self.old.before at self.old.stack)) }
    {
        match role {
            Role::Opens(opener) => {
                let known = known_as(opener, self.before);
                self.stack.push(Entry::Open(known, at), at)
            }
            Role::Closes(opener) => self.close_to(alloc, opener, at),
            Role::Comma => {
                let blocks = self.closed_by_comma();
                self.close(alloc, blocks, at)?;
                Ok(())
            }
            Role::In if !matches!(self.before, Before::LetEnd) => {
                let blocks = self.closed_by_in();
                self.close(alloc, blocks, at)?;
                Ok(())
            }
            _ => Ok(()),
        }
    }

    // What a token of this role asks of the next one, before it acts.
    fn asked(&self, role: Role) -> Before
        ensures { result ≡ spec.asked role self.now.stack }
    {
        match role {
            Role::Begins(of_let) => Before::Word(of_let),
            Role::Closes(Opener::Case) => Before::Word(false),
            Role::Closes(Opener::Brace)
                if is_let_brace(self.stack.get(self.stack.run_len(Run::Blocks))) => {
                Before::LetEnd
            }
            _ => Before::Other,
        }
    }

    /// Goes on behind a token, or refuses by E04 at it.
    pub fn take(&mut self, alloc: Global, token: &Token) -> Result<(), Fail>
        ensures { Leaves result token.now.at (so_far self.new) (option_map (turn_behind self.old.out.items) (spec.turn_of self.old.before token.now self.old.stack)) }
    {
        let role = role_of(token);
        self.place(alloc, role, token)?;
        let asked = self.asked(role);
        self.act(alloc, role, token.at)?;
        let copy = copied(alloc, token)?;
        self.out.push(copy)?;
        self.before = asked;
        Ok(())
    }

    /// The tokens with all that is inserted, at the end of the source, whose last token stands at `at`; or the refusal by
    /// E04 at the lowest opener that is left.
    pub fn end(mut self, alloc: Global, at: Place) -> Result<Vec<Token>, Fail>
        ensures { Answers (λ found. found.items) result (spec.in_front self.out.items (spec.ended at self.before self.stack)) }
    {
        if let Some(opener) = self.stack.lowest_opener() {
            return Err(broken_at(opener));
        }
        if matches!(self.before, Before::Nothing | Before::Word(_)) {
            self.insert(alloc, b"{".as_slice(), at)?;
            self.insert(alloc, b"}".as_slice(), at)?;
        }
        let blocks = self.stack.len();
        self.close(alloc, blocks, at)?;
        Ok(self.out)
    }
}
