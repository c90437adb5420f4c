//! Numbers in fields of a frame that do not take every number of their bits (CiA 301, 7.2.4.3.9 to 7.2.4.3.11: blksize, seqno and n).
ghost use Rattle.std.specs.Prelude.{◌≡◌, ◌+◌, ◌≤◌, ◌%◌};
ghost use Rattle.std.specs.Option.{option_map};
ghost use Rattle.sdo.specs.Ranges.{in_range};
ghost use Rattle.wire.specs.Ranges.{nearest};

/// A number from LOW to HIGH.
#[derive(Clone, Copy, PartialEq, Eq, Debug)]
pub struct Ranged<const LOW: u8, const HIGH: u8> {
    number: u8,
    ghost low: { LOW ≤ number },
    ghost high: { number ≤ HIGH },
}

/// How many segments a sub-block has, 1 to 127.
pub type BlockSize = Ranged<1, 127>;

/// The number of a segment within its sub-block, seven bits; segments are numbered from 1.
pub type SequenceNumber = Ranged<0, 127>;

/// How many bytes of a block's last segment are not of the value, 0 to 7.
pub type UnusedBytes = Ranged<0, 7>;

impl<const LOW: u8, const HIGH: u8> Ranged<LOW, HIGH> {
    /// The number as one of the range; none where it lies outside.
    pub fn new(number: u8) -> Option<Ranged<LOW, HIGH>>
        ensures { option_map (λ n. n.number) result ≡ in_range LOW HIGH number }
    {
        if LOW <= number && number <= HIGH {
            Some(Ranged { number })
        } else {
            None
        }
    }

    /// The plain number.
    pub fn number(&self) -> u8
        ensures { result ≡ self.now.number }
    {
        self.number
    }
}

impl<const HIGH: u8> Ranged<0, HIGH> {
    /// A byte wrapped into 0 to HIGH: its low bits, where HIGH has all of these.
    pub(crate) fn wrapped(byte: u8) -> Ranged<0, HIGH>
        ensures { result.number ≡ byte % (HIGH + 1) }
    {
        Ranged {
            number: (byte as u16 % (HIGH as u16 + 1)) as u8,
        }
    }
}

impl BlockSize {
    /// The block size nearest to a number: itself from 1 to 127, else the nearer end.
    pub fn nearest(number: u8) -> BlockSize
        ensures { result.number ≡ nearest number }
    {
        Ranged {
            number: number.clamp(1, 127),
        }
    }
}
