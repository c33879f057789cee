// What `imprint --help` prints.
pub const USAGE: &str = "imprint: programme images for the imprint box

usage:
  imprint items FILE           list the items of the image in FILE
  imprint check KIND FILE...   load each image into a box for the label kind, and print the verdict
  imprint --help               this text

examples:
  imprint items examples/card.hex
  imprint check stage examples/card.hex examples/secret_branch.hex
  imprint check stage - < examples/card_rows.txt

FILE is a text of words, one to eight hexadecimal digits each, separated by white space;
'#' starts a comment that runs to the end of its line. '-' stands for standard input, on
which 'check' reads an image from each line.

KIND is stage, mastheads, stage*mastheads, mastheads*stage, stage*stage or
mastheads*mastheads; quote the '*'. docs/labels.md says what they are.

'items' prints a line for each word of each whole item: its place, the word, and what it says.
It ends with a line 'N words: ..', or with the refusal, where the image breaks a rule of layout.

'check' prints 'NAME: accepted, N words' or 'NAME: refused N at word P, PASS: ..' for each image,
with what is wrong at that word. docs/refusals.md lists the numbers, docs/rules.md the rules.

Status: 0 if every text is an image, refused or not; 1 if one is none, with the reason on
standard error.
";
