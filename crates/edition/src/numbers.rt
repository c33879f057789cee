// Numbers as they are written.
ghost use Rattle.std.specs.Prelude.{◌≡◌, ◌≤◌};
ghost use Rattle.edition.specs.Numbers.{value_in, number_of, capped};

// The first number that has more than 32 bits: what each larger one counts as.
const TOO_LARGE: u64 = 0x1_0000_0000;

// The value of digits of a base up to 16, which are one at least.
fn value_in(base: u32, digits: &[u8]) -> Option<u64>
    requires low { 2 ≤ base }
    requires high { base ≤ 16 }
    ensures { result ≡ capped (value_in base digits.now) }
{
    if digits.is_empty() {
        return None;
    }
    let mut value: u64 = 0;
    for byte in digits {
        let digit = char::from(*byte).to_digit(base)?;
        value = (value * u64::from(base) + u64::from(digit)).min(TOO_LARGE);
    }
    Some(value)
}

// What a field is as a number.
pub fn number_of(bytes: &[u8]) -> Option<u64>
    ensures { result ≡ capped (number_of bytes.now) }
{
    match bytes {
        [b'0', b'x', digits @ ..] => value_in(16, digits),
        _ => value_in(10, bytes),
    }
}
