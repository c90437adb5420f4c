//! A table's refusals in their order, and what it answers.
use dictionary::{Access, AddRefusal, Attributes, CopyRefusal, Readable, Table, Writable, sample};
use wire::{AbortCode, Multiplexor};

fn at(index: u16, subindex: u8) -> Multiplexor {
    Multiplexor { index, subindex }
}

fn both(shortest: u16, longest: u16) -> Attributes {
    Attributes {
        access: Access::ReadWrite,
        shortest,
        longest,
    }
}

#[test]
fn a_65th_entry_is_refused_first_of_all(rt: HostRuntime) {
    let mut table = Table::new();
    for index in 1..65u16 {
        assert_eq!(rt; table.add(at(index, 0), both(1, 64), &[0]), Ok(()));
    }
    assert_eq!(rt; table.add(at(0, 0), both(0, 0), &[]), Err(AddRefusal::Full));
    assert_eq!(rt; u8::from(AddRefusal::Full), 8);
}

#[test]
fn entries_come_in_rising_order(rt: HostRuntime) {
    let mut table = Table::new();
    assert_eq!(rt; table.add(at(0x2000, 1), both(1, 1), &[0]), Ok(()));
    assert_eq!(rt;
        table.add(at(0x2000, 1), both(0, 0), &[]),
        Err(AddRefusal::NotAbove)
    );
    assert_eq!(rt;
        table.add(at(0x1fff, 255), both(1, 1), &[0]),
        Err(AddRefusal::NotAbove)
    );
    assert_eq!(rt; table.add(at(0x2000, 2), both(1, 1), &[0]), Ok(()));
    assert_eq!(rt; u8::from(AddRefusal::NotAbove), 9);
}

#[test]
fn lengths_and_values_are_lawful(rt: HostRuntime) {
    let mut table = Table::new();
    assert_eq!(rt;
        table.add(at(1, 0), both(0, 4), &[0]),
        Err(AddRefusal::Unlawful)
    );
    assert_eq!(rt;
        table.add(at(1, 0), both(3, 2), &[0, 0]),
        Err(AddRefusal::Unlawful)
    );
    assert_eq!(rt;
        table.add(at(1, 0), both(1, 1025), &[0]),
        Err(AddRefusal::Unlawful)
    );
    assert_eq!(rt;
        table.add(at(1, 0), both(2, 3), &[0]),
        Err(AddRefusal::Unlawful)
    );
    assert_eq!(rt;
        table.add(at(1, 0), both(2, 3), &[0, 0, 0, 0]),
        Err(AddRefusal::Unlawful)
    );
    assert_eq!(rt; table.add(at(1, 0), both(1, 1024), &[0; 1024]), Ok(()));
    assert_eq!(rt; u8::from(AddRefusal::Unlawful), 10);
}

#[test]
fn no_more_than_4096_bytes_are_reserved(rt: HostRuntime) {
    let mut table = Table::new();
    for index in 1..4u16 {
        assert_eq!(rt; table.add(at(index, 0), both(1, 1024), &[0]), Ok(()));
    }
    assert_eq!(rt; table.add(at(4, 0), both(1, 1023), &[0]), Ok(()));
    assert_eq!(rt;
        table.add(at(5, 0), both(1, 2), &[0]),
        Err(AddRefusal::NoRoom)
    );
    assert_eq!(rt; table.add(at(5, 0), both(1, 1), &[0]), Ok(()));
    assert_eq!(rt; u8::from(AddRefusal::NoRoom), 11);
}

#[test]
fn a_refused_copy_leaves_the_buffer(rt: HostRuntime) {
    let table = sample();
    let mut buffer = [7u8; 5];
    assert_eq!(rt;
        table.copy_value(at(0x1008, 0), &mut buffer),
        Err(CopyRefusal::ShortBuffer)
    );
    assert_eq!(rt; CopyRefusal::ShortBuffer.number(), Some(12));
    assert_eq!(rt;
        table.copy_value(at(0x1008, 1), &mut buffer),
        Err(CopyRefusal::Verdict(AbortCode::NoSubindex))
    );
    assert_eq!(rt;
        table.copy_value(at(0x1009, 0), &mut buffer),
        Err(CopyRefusal::Verdict(AbortCode::NoObject))
    );
    assert_eq!(rt; buffer, [7; 5]);
    assert_eq!(rt; table.copy_value(at(0x1000, 0), &mut buffer), Ok(4));
    assert_eq!(rt; buffer, [0x92, 1, 2, 0, 7]);
}

#[test]
fn an_unreadable_value_is_refused_before_the_buffer_is_looked_at(rt: HostRuntime) {
    let mut table = Table::new();
    let attributes = Attributes {
        access: Access::WriteOnly,
        shortest: 2,
        longest: 2,
    };
    assert_eq!(rt; table.add(at(1, 0), attributes, &[1, 2]), Ok(()));
    assert_eq!(rt;
        table.copy_value(at(1, 0), &mut []),
        Err(CopyRefusal::Verdict(AbortCode::WriteOnly))
    );
}

#[test]
fn verdicts_come_in_their_order(rt: HostRuntime) {
    let mut table = sample();
    assert_eq!(rt; table.commit(at(0x3000, 0), &[]), Err(AbortCode::NoObject));
    assert_eq!(rt;
        table.commit(at(0x2000, 2), &[]),
        Err(AbortCode::NoSubindex)
    );
    assert_eq!(rt; table.commit(at(0x1000, 0), &[]), Err(AbortCode::ReadOnly));
    assert_eq!(rt;
        table.commit(at(0x2000, 1), &[1]),
        Err(AbortCode::LengthTooLow)
    );
    assert_eq!(rt;
        table.commit(at(0x2000, 1), &[1, 2, 3]),
        Err(AbortCode::LengthTooHigh)
    );
    assert_eq!(rt; table.commit(at(0x2000, 1), &[1, 2]), Ok(()));
    let mut buffer = [0u8; 2];
    assert_eq!(rt; table.copy_value(at(0x2000, 1), &mut buffer), Ok(2));
    assert_eq!(rt; buffer, [1, 2]);
}

#[test]
fn entries_are_found_one_after_the_other(rt: HostRuntime) {
    let table = sample();
    assert_eq!(rt; table.next(at(0, 0)), Some(at(0x1000, 0)));
    assert_eq!(rt; table.next(at(0x1000, 0)), Some(at(0x1008, 0)));
    assert_eq!(rt; table.next(at(0x2000, 0)), Some(at(0x2000, 1)));
    assert_eq!(rt; table.next(at(0x2001, 0)), None);
    assert_eq!(rt; table.attributes(at(0x2001, 0)), Ok(both(1, 1024)));
    assert_eq!(rt; u8::from(Access::ReadWrite), 3);
    assert_eq!(rt; table.attributes(at(0x2001, 1)), Err(AbortCode::NoSubindex));
}

/// The attributes of an entry of `of_entries`, by its index.
fn of_index(index: u8) -> Attributes {
    both(1, u16::from(index) + 2)
}

/// A table with so many entries, at subindex 1 of the indices from 1 on.
fn of_entries(count: u8) -> Table {
    let mut table = Table::new();
    for index in 1..=count {
        let _ = table.add(at(u16::from(index), 1), of_index(index), &[0]);
    }
    table
}

#[test]
fn entries_are_found_in_small_and_large_tables(rt: HostRuntime) {
    for count in [0, 1, 2, 23, 24, 25, 26, 63, 64] {
        let table = of_entries(count);
        for index in 1..=count {
            let here = u16::from(index);
            assert_eq!(rt; table.attributes(at(here, 1)), Ok(of_index(index)));
            assert_eq!(rt; table.attributes(at(here, 0)), Err(AbortCode::NoSubindex));
            assert_eq!(rt; table.attributes(at(here, 2)), Err(AbortCode::NoSubindex));
        }
        let behind = u16::from(count) + 1;
        assert_eq!(rt; table.attributes(at(0, 1)), Err(AbortCode::NoObject));
        assert_eq!(rt; table.attributes(at(behind, 1)), Err(AbortCode::NoObject));
    }
}
