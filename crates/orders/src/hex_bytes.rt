//! Bytes as text.
ghost use Rattle.std.specs.Prelude.{Some};
ghost use Rattle.orders.specs.Written.{bytes_alone};

use std::fmt;
use wire::Hex;

/// Bytes as an order writes them: in two hex digits each, parted by blanks.
#[derive(Clone, Copy)]
pub struct HexBytes<'a>(pub &'a [u8]);

impl fmt::Display for HexBytes<'_> {
    ghost output = { λ x. Some (bytes_alone x.0.now) };

    fn fmt<W: fmt::Write>(&self, f: &mut fmt::Formatter<W>) -> fmt::Result {
        if let [first, rest @ ..] = self.0 {
            write!(f, "{}", Hex(*first))?;
            for byte in rest {
                write!(f, " {}", Hex(*byte))?;
            }
        }
        Ok(())
    }
}
