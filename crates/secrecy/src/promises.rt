ghost use Rattle.secrecy.specs.Promise.{Promise};
ghost use Rattle.secrecy.specs.Seen.{Confidential};

use rules::promises::passes;

// Two runs of a programme that meets every rule, with jobs that differ only in what a reader may not see, look alike to the reader.
pub fn confidential()
    ensures { Confidential }
{}

// Whatever calls two new boxes go through, a reader sees no more of them than a reader may. That an accepted image meets every rule comes
// from the passes.
pub fn promise()
    ensures { Promise }
{
    let _ = passes();
}
