ghost use Rattle.machine.specs.Cells.{start};
ghost use Rattle.machine.specs.Machine.{body, run};
ghost use Rattle.machine.specs.Runnables.{programme_of};
ghost use Rattle.machine.specs.Turns.{ComesTo};
ghost use Rattle.machine.specs.Typed.{CellsHold};
ghost use Rattle.std.specs.Prelude.{length};

use crate::memory::Memory;
use crate::ran::{End, Ran};
use crate::runnable::Runnable;
use crate::strike::Strike;
use crate::turn::Turn;
use crate::words::{first, past_raises};

// Runs the programme on its cells from block 0, for at most so many steps as there is fuel. The strikes go to the front of the strip.
// Before a counted word the fuel is tested first, and then, where the word strikes, the strip's room.
pub fn run(image: Runnable<'_>, fuel: u32, strip: &mut [Strike], cells: &mut [u32]) -> Ran
    requires { CellsHold (programme_of image) cells.old }
    ensures { ComesTo (run (programme_of image.entry) fuel (length strip.old) (body (programme_of image.entry) 0) (start cells.old)) result strip.old strip.new cells.new }
{
    let mut memory = Memory::start();
    let mut rest = image.block(0).words;
    let mut strikes = 0;
    for steps in 0..fuel {
        let here = past_raises(rest);
        match memory.obey(image, first(here), &here[1..], cells) {
            Turn::Stop => {
                return Ran {
                    end: End::Halted,
                    steps: steps + 1,
                    strikes,
                };
            }
            Turn::Go(words) => rest = words,
            Turn::Struck(strike, words) => {
                if strikes >= strip.len() {
                    return Ran {
                        end: End::Full,
                        steps,
                        strikes,
                    };
                }
                // By its number: of a place that `get_mut` or `iter_mut` lends a proof does not know what was written there.
                strip[strikes] = strike;
                strikes += 1;
                rest = words;
            }
        }
    }
    Ran {
        end: End::Spent,
        steps: fuel,
        strikes,
    }
}
