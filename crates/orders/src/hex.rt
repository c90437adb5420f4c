//! Numbers as orders write them: in hex digits of either case, the highest digit first.
ghost use Rattle.std.specs.Prelude.{◌≡◌};
ghost use Rattle.orders.specs.Hex.{hex_value, byte_of, byte_in, multiplexor_in};

use wire::Multiplexor;

/// The value of a hex digit.
fn digit(b: u8) -> Option<u8>
    ensures { result ≡ hex_value b }
{
    Some(char::from(b).to_digit(16)? as u8)
}

/// The byte that two hex digits write.
fn byte(high: u8, low: u8) -> Option<u8>
    ensures { result ≡ byte_of (hex_value high) (hex_value low) }
{
    let high = digit(high)?;
    let low = digit(low)?;
    Some(high * 16 + low)
}

/// The byte that a word writes.
pub fn read_byte(word: &[u8]) -> Option<u8>
    ensures { result ≡ byte_in word.now }
{
    match word {
        [high, low] => byte(*high, *low),
        _ => None,
    }
}

/// The multiplexor that a word writes.
pub fn read_multiplexor(word: &[u8]) -> Option<Multiplexor>
    ensures { result ≡ multiplexor_in word.now }
{
    let [a, b, c, d, b':', e, f] = word else {
        return None;
    };
    let high = byte(*a, *b)?;
    let low = byte(*c, *d)?;
    let subindex = byte(*e, *f)?;
    let index = u16::from_be_bytes([high, low]);
    Some(Multiplexor { index, subindex })
}
