//! Values found by their multiplexors.
use search::{Keyed, place};
use wire::Multiplexor;

/// A value, and where it stands.
#[derive(Drop)]
struct Held {
    at: Multiplexor,
    value: u8,
}

impl Keyed for Held {
    type Key = Multiplexor;

    ghost label = { λ h. h.at };

    fn key(&self) -> Multiplexor {
        self.at
    }
}

/// The value at a multiplexor, among some.
fn value(rows: &[Held], index: u16, subindex: u8) -> Option<u8> {
    place(rows, Multiplexor { index, subindex }).map(|i| rows[i].value)
}

/// A value at an index and a subindex.
fn row_at(index: u16, subindex: u8, value: u8) -> Held {
    Held {
        at: Multiplexor { index, subindex },
        value,
    }
}

#[test]
fn values_by_multiplexor(rt: HostRuntime) {
    let rows = [
        row_at(0x1000, 0, 1),
        row_at(0x2000, 1, 2),
        row_at(0x2000, 2, 3),
        row_at(0x2001, 0, 4),
    ];
    assert_eq!(rt; value(&rows, 0x1000, 0), Some(1));
    assert_eq!(rt; value(&rows, 0x2000, 1), Some(2));
    assert_eq!(rt; value(&rows, 0x2000, 2), Some(3));
    assert_eq!(rt; value(&rows, 0x2001, 0), Some(4));
    assert_eq!(rt; value(&rows, 0x2000, 0), None);
    assert_eq!(rt; value(&rows, 0x2000, 3), None);
}
