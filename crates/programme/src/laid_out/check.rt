ghost use Rattle.image.specs.Layout.{layout};
ghost use Rattle.image.specs.Faults.{answered};
ghost use Rattle.programme.specs.Spelled.{words_in};
ghost use Rattle.std.specs.Prelude.{◌≡◌, IfOk};

use crate::laid_out::LaidOut;
use image::layout::first_fault;
use image::rule::LayoutFault;

impl<'a> LaidOut<'a> {
    // The words, where the layout pass finds nothing in them, or else its finding.
    pub fn check(words: &'a [u32]) -> Result<LaidOut<'a>, LayoutFault>
        ensures finding { answered result ≡ layout words.now }
        ensures kept { IfOk result (λ x. words_in x ≡ words.now) }
    {
        match first_fault(words) {
            None => Ok(LaidOut { words }),
            Some(fault) => Err(fault),
        }
    }

    pub fn words(&self) -> &'a [u32]
        ensures { result.now ≡ words_in self.now }
    {
        self.words
    }
}
