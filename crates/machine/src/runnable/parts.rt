ghost use Rattle.std.specs.Prelude.{◌≡◌, ◌<◌, length};
ghost use Rattle.machine.specs.Runnables.{programme_of};
ghost use Rattle.programme.specs.Spelled.{block_spelled};
ghost use Rattle.rules.specs.Program.{block_at};

use crate::runnable::Runnable;
use programme::parts::BlockWords;

impl<'a> Runnable<'a> {
    pub(crate) fn block(self, n: u32) -> BlockWords<'a>
        requires { n < length (programme_of self).blocks }
        ensures { block_spelled result ≡ block_at (programme_of self.entry) n }
    {
        self.image.block(n).unwrap()
    }
}
