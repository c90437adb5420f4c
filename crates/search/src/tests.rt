//! Rows found by their keys: counts by code.
use crate::binary::{count_before, place};
use crate::keyed::Keyed;

/// How often a code was seen.
#[derive(Drop)]
struct Seen {
    code: u32,
    times: u16,
}

impl Keyed for Seen {
    type Key = u32;

    ghost label = { λ s. s.code };

    fn key(&self) -> u32 {
        self.code
    }
}

/// How often a code was seen, among some.
fn times(rows: &[Seen], code: u32) -> Option<u16> {
    place(rows, code).map(|i| rows[i].times)
}

/// A code that was seen so many times.
fn row_of_code(code: u32, times: u16) -> Seen {
    Seen { code, times }
}

#[test]
fn counts_by_code(rt: HostRuntime) {
    let rows = [
        row_of_code(0x05040000, 1),
        row_of_code(0x06010002, 7),
        row_of_code(0x06090011, 2),
    ];
    assert_eq!(rt; times(&rows, 0x05040000), Some(1));
    assert_eq!(rt; times(&rows, 0x06010002), Some(7));
    assert_eq!(rt; times(&rows, 0x06090011), Some(2));
    assert_eq!(rt; times(&rows, 0), None);
    assert_eq!(rt; times(&rows, 0x06010001), None);
    assert_eq!(rt; times(&rows, 0x08000000), None);
}

#[test]
fn nothing_among_no_rows(rt: HostRuntime) {
    assert_eq!(rt; times(&[], 0), None);
}

#[test]
fn a_row_that_is_found_has_the_key_even_in_disorder(rt: HostRuntime) {
    let rows = [row_of_code(3, 30), row_of_code(1, 10), row_of_code(2, 20)];
    assert_eq!(rt; times(&rows, 2), Some(20));
    assert_eq!(rt; times(&rows, 3), None);
}

#[test]
fn rows_before_a_key_are_counted(rt: HostRuntime) {
    let rows = [row_of_code(10, 0), row_of_code(20, 0), row_of_code(30, 0)];
    assert_eq!(rt; count_before(&rows, 10), 0);
    assert_eq!(rt; count_before(&rows, 11), 1);
    assert_eq!(rt; count_before(&rows, 30), 2);
    assert_eq!(rt; count_before(&rows, 31), 3);
}
