// The settings of a job.
ghost use Rattle.std.specs.Prelude.{◌≡◌, Some};
ghost use Rattle.edition.specs.Settings.{keyword_of, limit_of};

use std::fmt;

// How many words the press memory holds: a strip and a sheet have at most so many.
pub const PRESS_MEMORY: u32 = 65536;

// What a job's line sets, each by a keyword with its number behind it, or at `Words` its numbers.
#[derive(Clone, Copy, PartialEq, Eq, Debug)]
pub enum Setting {
    Fuel,
    Strip,
    Sheet,
    Words,
}

impl Setting {
    // How the setting is written.
    pub fn keyword(self) -> &'static str
        ensures { result.now ≡ keyword_of self }
    {
        match self {
            Setting::Fuel => "fuel",
            Setting::Strip => "strip",
            Setting::Sheet => "sheet",
            Setting::Words => "words",
        }
    }

    // The largest number that the setting takes.
    pub fn limit(self) -> u32
        ensures { result ≡ limit_of self }
    {
        match self {
            Setting::Fuel | Setting::Words => u32::MAX,
            Setting::Strip | Setting::Sheet => PRESS_MEMORY,
        }
    }
}

impl fmt::Display for Setting {
    ghost output = { λ s. Some (keyword_of s) };

    fn fmt<W: fmt::Write>(&self, f: &mut fmt::Formatter<W>) -> fmt::Result {
        f.write_str(self.keyword())
    }
}
