ghost use Rattle.machine.specs.Memories.{state_of};
ghost use Rattle.machine.specs.Runnables.{programme_of};
ghost use Rattle.machine.specs.Turns.{Moves, Turns};
ghost use Rattle.machine.specs.Typed.{CanMove, CanDo};
ghost use Rattle.rules.specs.Says.{body_of};
ghost use Rattle.std.specs.Prelude.{◌∷◌};

use crate::memory::Memory;
use crate::runnable::Runnable;
use crate::strike::Strike;
use crate::turn::Turn;
use image::instruction::Instruction;

impl Memory {
    // Does what a counted word says, with the words behind it in its block.
    pub(crate) fn obey<'a>(
        &mut self,
        image: Runnable<'a>,
        i: Instruction,
        behind: &'a [u32],
        cells: &mut [u32],
    ) -> Turn<'a>
        requires { CanDo (programme_of image) (state_of self.old cells.old) i }
        ensures { Turns (programme_of image.entry) (state_of self.old cells.old) (i ∷ body_of behind.now) result (state_of self.new cells.new) }
    {
        match i {
            Instruction::Strike { channel, from } => {
                let word = self.register(from);
                Turn::Struck(Strike { channel, word }, behind)
            }
            Instruction::Branch { test, target } => {
                if self.register(test) == 0 {
                    return Turn::Go(behind);
                }
                Turn::Go(image.block(self.register(target)).words)
            }
            Instruction::Jump { target } => Turn::Go(image.block(self.register(target)).words),
            Instruction::Lower { block } => Turn::Go(image.block(u32::from(block)).words),
            Instruction::Halt => Turn::Stop,
            _ => {
                self.change(image, i, cells);
                Turn::Go(behind)
            }
        }
    }

    // Does what an instruction says that goes on to the next word. Numbers wrap at 32 bits.
    fn change(&mut self, image: Runnable<'_>, i: Instruction, cells: &mut [u32])
        requires { CanMove (programme_of image) (state_of self.old cells.old) i }
        ensures { Moves (programme_of image.entry) (state_of self.old cells.old) i (state_of self.new cells.new) }
    {
        match i {
            Instruction::SetNumber { to, value } => self.set_register(to, u32::from(value)),
            Instruction::SetTuple { to, tuple } => self.set_register(to, u32::from(tuple)),
            Instruction::SetBlock { to, block } => self.set_register(to, u32::from(block)),
            Instruction::Copy { to, from } => self.set_register(to, self.register(from)),
            Instruction::Add { to, left, right } => {
                self.set_register(to, self.register(left).wrapping_add(self.register(right)));
            }
            Instruction::Subtract { to, left, right } => {
                self.set_register(to, self.register(left).wrapping_sub(self.register(right)));
            }
            Instruction::Fetch { to, pointer, cell } => {
                self.set_register(to, cells[image.place(self.register(pointer), cell)]);
            }
            Instruction::Store {
                pointer,
                from,
                cell,
            } => cells[image.place(self.register(pointer), cell)] = self.register(from),
            Instruction::Push { count } => {
                self.stack.push(usize::from(count), 0);
            }
            Instruction::Pop { count } => self.stack.pop(usize::from(count)),
            Instruction::Peek { to, slot } => {
                let word = self.stack.get(usize::from(slot), 0);
                self.set_register(to, word);
            }
            Instruction::Poke { from, slot } => {
                let word = self.register(from);
                self.stack.put(usize::from(slot), word);
            }
            _ => unreachable(),
        }
    }
}
