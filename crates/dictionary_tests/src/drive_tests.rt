//! What a drive holds, shows and takes.
use dictionary::{Access, Attributes, CopyRefusal, Readable, Writable};
use drive::Drive;
use wire::{AbortCode, Multiplexor};

const MODE: Multiplexor = Multiplexor {
    index: 0x6060,
    subindex: 0,
};

const ACCELERATION: Multiplexor = Multiplexor {
    index: 0x6083,
    subindex: 0,
};

fn both(length: u16) -> Attributes {
    Attributes {
        access: Access::ReadWrite,
        shortest: length,
        longest: length,
    }
}

#[test]
fn a_new_drive_shows_its_two_numbers(rt: HostRuntime) {
    let drive = Drive::new();
    let lowest = Multiplexor {
        index: 0,
        subindex: 0,
    };
    assert!(rt; drive.next(lowest) == Some(MODE));
    assert!(rt; drive.next(MODE) == Some(ACCELERATION));
    assert!(rt; drive.next(ACCELERATION) == None);
    assert!(rt; drive.attributes(MODE) == Ok(both(1)));
    assert!(rt; drive.attributes(ACCELERATION) == Ok(both(4)));
    let mut buffer = [7u8; 5];
    assert!(rt; matches!(drive.copy_value(MODE, &mut buffer), Ok(1)));
    assert!(rt; buffer == [1, 7, 7, 7, 7]);
    assert!(rt; matches!(drive.copy_value(ACCELERATION, &mut buffer), Ok(4)));
    assert!(rt; buffer == [0xe8, 0x03, 0, 0, 7]);
}

#[test]
fn a_mode_is_1_3_or_6(rt: HostRuntime) {
    let mut drive = Drive::new();
    assert!(rt; drive.commit(MODE, &[0]) == Err(AbortCode::InvalidValue));
    assert!(rt; drive.commit(MODE, &[2]) == Err(AbortCode::InvalidValue));
    assert!(rt; drive.commit(MODE, &[0xff]) == Err(AbortCode::InvalidValue));
    assert!(rt; i8::from(drive.mode_of_operation) == 1);
    assert!(rt; drive.commit(MODE, &[3]) == Ok(()));
    assert!(rt; i8::from(drive.mode_of_operation) == 3);
    assert!(rt; drive.commit(MODE, &[6]) == Ok(()));
    assert!(rt; i8::from(drive.mode_of_operation) == 6);
    assert!(rt; u32::from(drive.profile_acceleration) == 1_000);
}

#[test]
fn an_acceleration_is_1_to_1000000(rt: HostRuntime) {
    let mut drive = Drive::new();
    assert!(rt; drive.commit(ACCELERATION, &[0, 0, 0, 0]) == Err(AbortCode::InvalidValue));
    assert!(rt; drive.commit(ACCELERATION, &[0x41, 0x42, 0x0f, 0]) == Err(AbortCode::InvalidValue));
    assert!(rt; u32::from(drive.profile_acceleration) == 1_000);
    assert!(rt; drive.commit(ACCELERATION, &[1, 0, 0, 0]) == Ok(()));
    assert!(rt; u32::from(drive.profile_acceleration) == 1);
    assert!(rt; drive.commit(ACCELERATION, &[0x40, 0x42, 0x0f, 0]) == Ok(()));
    assert!(rt; u32::from(drive.profile_acceleration) == 1_000_000);
    assert!(rt; i8::from(drive.mode_of_operation) == 1);
}

#[test]
fn its_verdicts_come_in_their_order(rt: HostRuntime) {
    let mut drive = Drive::new();
    let missing = Multiplexor {
        index: 0x6060,
        subindex: 1,
    };
    let unknown = Multiplexor {
        index: 0x6081,
        subindex: 0,
    };
    assert!(rt; drive.commit(unknown, &[]) == Err(AbortCode::NoObject));
    assert!(rt; drive.commit(missing, &[]) == Err(AbortCode::NoSubindex));
    assert!(rt; drive.commit(MODE, &[]) == Err(AbortCode::LengthTooLow));
    assert!(rt; drive.commit(MODE, &[2, 0]) == Err(AbortCode::LengthTooHigh));
    assert!(rt; drive.commit(ACCELERATION, &[1, 0]) == Err(AbortCode::LengthTooLow));
    assert!(rt;
        matches!(
            drive.copy_value(missing, &mut []),
            Err(CopyRefusal::Verdict(AbortCode::NoSubindex))
        )
    );
    assert!(rt;
        matches!(
            drive.copy_value(ACCELERATION, &mut [0; 3]),
            Err(CopyRefusal::ShortBuffer)
        )
    );
}
