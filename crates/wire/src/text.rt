//! How multiplexors, frames and abort codes are written for people: numbers in hexadecimal digits, in capitals.
ghost use Rattle.std.specs.Prelude.{◌≡◌, ◌<◌, Some};
ghost use Rattle.wire.specs.Texts.{hex_digit, hex_byte, multiplexor_text, identifier_text, frame_text, code_text};

use crate::abort_code::AbortCode;
use crate::frame::Frame;
use crate::identifier::Identifier;
use crate::multiplexor::Multiplexor;
use std::fmt;

/// A byte as two digits.
#[derive(Clone, Copy)]
pub struct Hex(pub u8);

/// The digit of a number below 16.
fn digit(n: u8) -> char
    requires { n < 16 }
    ensures value { result ≡ hex_digit n }
    ensures ascii { result < 128 }
{
    let code = if n < 10 { 48 + n } else { 55 + n };
    code as char
}

impl fmt::Display for Hex {
    ghost output = { λ x. Some (hex_byte x.0) };

    fn fmt<W: fmt::Write>(&self, f: &mut fmt::Formatter<W>) -> fmt::Result {
        let high = digit(self.0 / 16);
        let low = digit(self.0 % 16);
        write!(f, "{high}{low}")
    }
}

impl fmt::Display for Multiplexor {
    ghost output = { λ m. Some (multiplexor_text m) };

    fn fmt<W: fmt::Write>(&self, f: &mut fmt::Formatter<W>) -> fmt::Result {
        let [low, high] = self.index.to_le_bytes();
        let high = Hex(high);
        let low = Hex(low);
        let subindex = Hex(self.subindex);
        write!(f, "{high}{low}:{subindex}")
    }
}

impl fmt::Display for Identifier {
    ghost output = { λ i. Some (identifier_text i) };

    fn fmt<W: fmt::Write>(&self, f: &mut fmt::Formatter<W>) -> fmt::Result {
        let number = self.number();
        let first = digit((number / 256) as u8);
        let rest = Hex((number % 256) as u8);
        write!(f, "{first}{rest}")
    }
}

impl fmt::Display for Frame {
    ghost output = { λ f. Some (frame_text f) };

    fn fmt<W: fmt::Write>(&self, f: &mut fmt::Formatter<W>) -> fmt::Result {
        let identifier = self.identifier;
        let [b0, b1, b2, b3, b4, b5, b6, b7] = self.bytes;
        let b0 = Hex(b0);
        let b1 = Hex(b1);
        let b2 = Hex(b2);
        let b3 = Hex(b3);
        let b4 = Hex(b4);
        let b5 = Hex(b5);
        let b6 = Hex(b6);
        let b7 = Hex(b7);
        write!(f, "{identifier}#{b0}{b1}{b2}{b3}{b4}{b5}{b6}{b7}")
    }
}

impl fmt::Display for AbortCode {
    ghost output = { λ c. Some (code_text c) };

    fn fmt<W: fmt::Write>(&self, f: &mut fmt::Formatter<W>) -> fmt::Result {
        let [d, c, b, a] = u32::from(*self).to_le_bytes();
        let a = Hex(a);
        let b = Hex(b);
        let c = Hex(c);
        let d = Hex(d);
        write!(f, "{a}{b} {c}{d}")
    }
}
