ghost use Rattle.programme.specs.Spelled.{words_in};
ghost use Rattle.rules.specs.Free.{kind_free};
ghost use Rattle.std.specs.Prelude.{◌≡◌, true};

use programme::laid_out::LaidOut;

mod cells;
mod make;
mod parts;
mod tuples;

// An image that may be run: it meets every rule that asks no label kind. Those rules are what the machine rests on, so that it looks
// up registers, slots, cells, tuples and blocks without a test.
#[derive(Clone, Copy)]
pub struct Runnable<'a> {
    image: LaidOut<'a>,
    ghost sound: { kind_free (words_in image) ≡ true },
}
