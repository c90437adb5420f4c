//! Numbers as scripts and command lines write them: in digits, the highest first.
ghost use Rattle.std.specs.Prelude.{◌≡◌, ◌≤◌};
ghost use Rattle.commands.specs.Numbers.{number_in, pattern_in};

/// How many hex digits a pattern of 64 bits has.
const PATTERN_DIGITS: usize = 16;

/// The number that decimal digits write; none where another character stands or the number has more than 64 bits. No digits write 0.
pub fn read_decimal(word: &[u8]) -> Option<u64>
    ensures { result ≡ number_in 10 word.now }
{
    read_digits(10, word)
}

/// The pattern that exactly 16 hex digits write, in either case.
pub fn read_pattern(word: &[u8]) -> Option<u64>
    ensures { result ≡ pattern_in word.now }
{
    if word.len() == PATTERN_DIGITS {
        read_digits(16, word)
    } else {
        None
    }
}

/// The number that digits of a base from 2 to 16 write.
fn read_digits(base: u32, word: &[u8]) -> Option<u64>
    requires low { 2 ≤ base }
    requires high { base ≤ 16 }
    ensures { result ≡ number_in base word.now }
{
    let mut number = 0u64;
    for digit in word {
        let digit = char::from(*digit).to_digit(base)?;
        number = number
            .checked_mul(u64::from(base))?
            .checked_add(u64::from(digit))?;
    }
    Some(number)
}
