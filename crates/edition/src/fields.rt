// The fields of a line.
ghost use Rattle.std.specs.Prelude.{◌≡◌, ◌≤◌, length};
ghost use Rattle.edition.specs.Fields.{blank, IsRun};

// A field, with the column of its first byte, from 1.
#[derive(Clone, Copy)]
pub struct Field<'a> {
    pub column: usize,
    pub bytes: &'a [u8],
}

// The fields of a text that are still to come: those from the byte `at` on.
#[derive(Drop)]
pub struct Fields<'a> {
    text: &'a [u8],
    at: usize,
    ghost inside: { at ≤ length text.now },
}

fn is_blank(byte: u8) -> bool
    ensures { result ≡ blank byte }
{
    matches!(byte, b' ' | b'\t' | b'\r')
}

// How many bytes at the front pass the test.
fn run<F: Fn(u8) -> bool>(bytes: &[u8], passes: F) -> usize
    requires { F.IsAlwaysCallable passes }
    ensures { IsRun (F.post passes) bytes.now result }
{
    bytes.iter().take_while(|byte| passes(**byte)).count()
}

impl<'a> Fields<'a> {
    ghost use Rattle.std.specs.Prelude.{◌≡◌, ◌+◌, length};
    ghost use Rattle.edition.specs.Fields.{text_of, fields};
    ghost use Rattle.edition.specs.Cursor.{size, to_come};

    // The fields of a line's text, which ends where a comment starts.
    pub fn of(line: &'a [u8]) -> Fields<'a>
        ensures size { size result ≡ length (text_of line.now) }
        ensures fields { to_come result ≡ fields (text_of line.now) }
    {
        let end = run(line, |byte| byte != b'#');
        Fields {
            text: &line[..end],
            at: 0,
        }
    }

    // The column at which the text ends: one past its last byte.
    pub fn end_column(&self) -> usize
        ensures { result ≡ size self.now + 1 }
    {
        self.text.len() + 1
    }
}

impl<'a> Iterator for Fields<'a> {
    ghost use Rattle.std.specs.Iterator.{item_count};
    ghost use Rattle.edition.specs.Cursor.{to_come, HandsOut};

    type Item = Field<'a>;

    ghost next_gives = { HandsOut };

    ghost remaining = { item_count to_come };

    fn next(&mut self) -> Option<Field<'a>> {
        let text = self.text;
        let start = self.at + run(&text[self.at..], is_blank);
        let rest = &text[start..];
        let size = run(rest, |byte| !is_blank(byte));
        if size == 0 {
            return None;
        }
        self.at = start + size;
        Some(Field {
            column: start + 1,
            bytes: &rest[..size],
        })
    }
}
