// The parts of a job, read off the fields of its line.
ghost use Rattle.std.specs.Prelude.{◌≡◌, ◌+◌, ◌∷◌, [], Ok, MatchResult};
ghost use Rattle.edition.specs.declared.errors.LineError.TheVariants.{Missing};
ghost use Rattle.edition.specs.Cursor.{field_of, size, to_come, KeywordRead, SettingRead};
ghost use Rattle.edition.specs.Lines.{number, words_on, Refuses};

use crate::errors::{LineError, Part};
use crate::fields::{Field, Fields};
use crate::numbers::number_of;
use crate::setting::Setting;

impl<'a> Fields<'a> {
    // The next field, where this part is wanted.
    pub fn wanted(&mut self, part: Part) -> Result<Field<'a>, LineError>
        ensures read { MatchResult result (λ f. to_come self.old ≡ field_of f ∷ to_come self.new) (λ e. (to_come self.old ≡ []) × (e ≡ Missing (size self.old + 1) part)) }
        ensures same { size self.new ≡ size self.old }
    {
        let column = self.end_column();
        self.next().ok_or(LineError::Missing { column, part })
    }

    // Reads the keyword of a setting.
    pub fn keyword(&mut self, setting: Setting) -> Result<(), LineError>
        ensures { KeywordRead self.old setting result self.new }
    {
        let part = Part::Keyword(setting);
        let Field { column, bytes } = self.wanted(part)?;
        if bytes == setting.keyword().as_bytes() {
            Ok(())
        } else {
            Err(LineError::Unexpected { column, part })
        }
    }

    // Reads a setting: its keyword, and its number.
    pub fn setting(&mut self, setting: Setting) -> Result<u32, LineError>
        ensures { SettingRead self.old setting result self.new }
    {
        self.keyword(setting)?;
        let field = self.wanted(Part::Number(setting))?;
        field.number(setting)
    }

    // Adds the numbers that the fields are to the words.
    pub fn words(self, words: &mut Vec<u32>) -> Result<(), LineError>
        ensures { MatchResult result (λ _. words_on words.old.items (to_come self.entry) ≡ Ok words.new.items) (Refuses (words_on words.old.items (to_come self.entry))) }
    {
        for field in self {
            words.push(field.number(Setting::Words)?)?;
        }
        Ok(())
    }
}

impl Field<'_> {
    // The number that the field is, which the setting takes.
    pub fn number(self, setting: Setting) -> Result<u32, LineError>
        ensures { result ≡ number setting (field_of self.entry) }
    {
        let Field { column, bytes } = self;
        let limit = setting.limit();
        let part = Part::Number(setting);
        let value = number_of(bytes).ok_or(LineError::Unexpected { column, part })?;
        if value <= u64::from(limit) {
            Ok(value as u32)
        } else {
            Err(LineError::TooLarge {
                column,
                setting,
                limit,
            })
        }
    }
}
