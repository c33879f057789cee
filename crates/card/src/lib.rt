// The card: a small image at stages on which the rules and a run can be followed by hand. Its words are here as code and as a
// definition, and with them the worked examples: the changes of it that are refused, and its runs.
#![tactic(auto)]

ghost use Rattle.card.specs.Card.{card as the_card};
ghost use Rattle.card.specs.Examples.{examples, ExamplesHold};
ghost use Rattle.std.specs.Prelude.{length, ◌≡◌};

// The words of the card image.
pub fn card() -> [u32; 24]
    ensures { result ≡ the_card }
{
    [
        0x01000000, 0x01000001, 0x02000002, 0x11000001, 0x11000000, 0x03000000, 0x10000000,
        0x10000000, 0x10000000, 0x10000000, 0x10000000, 0x10000000, 0x10000000, 0x10000000,
        0x04000200, 0x00000000, 0x00000000, 0x05000006, 0x21000000, 0x25010001, 0x2B000100,
        0x25010000, 0x2B010100, 0x32000000,
    ]
}

// How many worked examples there are: each comes out as it says.
pub fn worked_examples() -> usize
    ensures count { result ≡ length examples }
    ensures hold { ExamplesHold }
{
    14
}
