ghost use Rattle.machine.specs.Runnables.{words_of};
ghost use Rattle.rules.specs.Free.{kind_free};
ghost use Rattle.std.specs.Prelude.{◌≡◌, true};

use crate::runnable::Runnable;
use programme::laid_out::LaidOut;

impl<'a> Runnable<'a> {
    // The words of an image that is known to meet the rules, as one that may be run.
    pub fn of(words: &'a [u32]) -> Runnable<'a>
        requires { kind_free words.now ≡ true }
        ensures { words_of result ≡ words.now }
    {
        let image = LaidOut::check(words).unwrap();
        Runnable { image }
    }
}
