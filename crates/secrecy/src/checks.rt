ghost use Rattle.secrecy.specs.Checks.{Lively, Leaky, SilenceBreaks, KeepsLengths};

// There is a history in which two secrets part, both runs halt and the reader sees a strike.
pub fn lively()
    ensures { Lively }
{}

// If one image that is refused for a label were let in, the promise would break.
pub fn leaky()
    ensures { Leaky }
{}

// A box that never strikes does not run as it should.
pub fn silence_breaks()
    ensures { SilenceBreaks }
{}

// Strip and sheet stay as long as they were.
pub fn keeps_lengths()
    ensures { KeepsLengths }
{}
