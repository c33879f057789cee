// Reads a programme image from the text in which people type it: words of one to eight hexadecimal digits, in either case, between
// white space. `#` starts a comment, which ends with its line. What is read of every text, and which error answers, is the
// definition `reading` in specs/Text.antt; `read_words` is proved to answer that, and to read words that are typed as in
// specs/Typed.antt as those words.
#![tactic(auto)]

ghost use Rattle.std.specs.Prelude.{◌≡◌, ◌++◌, MatchResult};
ghost use Rattle.std.specs.Option.{option_to_list};
ghost use Rattle.hextext.specs.declared.errors.TextError.TheVariants.{Memory};
ghost use Rattle.hextext.specs.Text.{Reads};
ghost use Rattle.hextext.specs.Typed.{ReadsBack};

pub use errors::TextError;
use state::{Class, State};
use std::alloc::Global;

pub mod errors;
mod state;

// The words of `text`, or the first error in it. `Memory` is the one answer that the text does not fix.
pub fn read_words(heap: Global, text: &[u8]) -> Result<Vec<u32>, TextError>
    ensures reads { Reads text.now result }
    ensures back { ReadsBack text.now result }
{
    let mut words = Vec::new(heap);
    let mut state = State::START;
    for byte in text {
        let class = Class::from(*byte);
        let next = state.after(&class)?;
        keep(&mut words, state.ended_by(&class))?;
        state = next;
    }
    keep(&mut words, state.unfinished())?;
    Ok(words)
}

// Adds the word, if there is one. Not by `extend`, which costs every byte of a text more than this test.
fn keep(words: &mut Vec<u32>, word: Option<u32>) -> Result<(), TextError>
    ensures { MatchResult result (λ _. words.new.items ≡ words.old.items ++ option_to_list word) (λ e. e ≡ Memory) }
{
    if let Some(word) = word {
        words.push(word)?;
    }
    Ok(())
}

#[cfg(test)]
mod tests {
    use super::*;
    use std::test::Fail;

    #[test]
    fn reads_words(rt: HostRuntime) -> Result<(), Fail> {
        let texts: [(&str, &[u32]); 6] = [
            ("", &[]),
            (" \t\r\n # 12 x\n", &[]),
            ("0", &[0]),
            ("12aB 00000000\nFFFFFFFF\r\n", &[0x12AB, 0, 0xFFFF_FFFF]),
            ("1#2\n3 # end", &[1, 3]),
            ("a\x0Bb\x0Cc", &[10, 11, 12]),
        ];
        for (text, words) in texts {
            let read = read_words(rt.alloc(), text.as_bytes())?;
            assert_eq!(rt; read.as_slice(), words, "{}", text);
        }
        Ok(())
    }

    #[test]
    fn says_what_is_wrong(rt: HostRuntime) -> Result<(), Fail> {
        let texts = [
            (
                "12 0x34",
                "line 1, column 5: 'x' is no hexadecimal digit; a word is one to eight of 0-9 and A-F, and # starts a comment (words are written without 0x)",
            ),
            (
                "# ok\n1\n ,",
                "line 3, column 2: ',' is no hexadecimal digit; a word is one to eight of 0-9 and A-F, and # starts a comment",
            ),
            (
                "\u{e9}",
                "line 1, column 1: byte 0xC3 is no hexadecimal digit; a word is one to eight of 0-9 and A-F, and # starts a comment",
            ),
            (
                "1\n 123456789g",
                "line 2, column 2: this word has more than eight hexadecimal digits; a word has 32 bits",
            ),
        ];
        for (text, expected) in texts {
            match read_words(rt.alloc(), text.as_bytes()) {
                Ok(_) => return Err(Fail::new("no error")),
                Err(e) => assert_eq!(rt; format!(in rt.alloc(); "{e}")?.as_str(), expected),
            }
        }
        Ok(())
    }
}
