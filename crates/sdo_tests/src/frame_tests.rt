//! Frames as CiA 301 shows them, and frames that no correct partner sends.
use sdo::{Answer, ExpeditedData, Request, Transfer};
use std::fmt::Write;
use std::process::Abort;
use std::test::Fail;
use wire::{AbortCode, Identifier, Multiplexor, NodeNumber};

const RAMP: Multiplexor = Multiplexor {
    index: 0x2000,
    subindex: 1,
};

/// The start of a write of these bytes to the ramp.
fn write(value: &[u8]) -> Result<Request, Fail> {
    let data = ExpeditedData::new(value).ok_or_else(|| Fail::new("not one to four bytes"))?;
    Ok(Request::InitiateDownload {
        multiplexor: RAMP,
        transfer: Transfer::Expedited { data },
    })
}

/// Checks that these bytes start a write of that value to the ramp.
fn check_write(rt: &impl Abort, bytes: [u8; 8], value: &[u8]) -> Result<(), Fail> {
    assert!(rt; Request::from_bytes(bytes) == Some(write(value)?));
    Ok(())
}

#[test]
fn starts_of_one_to_four_bytes(rt: HostRuntime) -> Result<(), Fail> {
    assert_eq!(rt; write(&[1])?.to_bytes(), [0x2f, 0, 0x20, 1, 1, 0, 0, 0]);
    assert!(rt; write(&[1, 2])?.to_bytes() == [0x2b, 0, 0x20, 1, 1, 2, 0, 0]);
    assert!(rt; write(&[1, 2, 3])?.to_bytes() == [0x27, 0, 0x20, 1, 1, 2, 3, 0]);
    assert!(rt; write(&[1, 2, 3, 4])?.to_bytes() == [0x23, 0, 0x20, 1, 1, 2, 3, 4]);
    assert!(rt; ExpeditedData::new(&[]).is_none());
    assert!(rt; ExpeditedData::new(&[1, 2, 3, 4, 5]).is_none());
    Ok(())
}

#[test]
fn bytes_past_the_value_are_ignored(rt: HostRuntime) -> Result<(), Fail> {
    check_write(&rt, [0x2f, 0, 0x20, 1, 1, 0xff, 0xff, 0xff], &[1])?;
    check_write(&rt, [0x2b, 0, 0x20, 1, 1, 2, 0xff, 0xff], &[1, 2])?;
    check_write(&rt, [0x3b, 0, 0x20, 1, 1, 2, 0xff, 0xff], &[1, 2])
}

#[test]
fn expedited_without_a_size_carries_four_bytes(rt: HostRuntime) -> Result<(), Fail> {
    check_write(&rt, [0x22, 0, 0x20, 1, 1, 2, 3, 4], &[1, 2, 3, 4])?;
    check_write(&rt, [0x2e, 0, 0x20, 1, 1, 2, 3, 4], &[1, 2, 3, 4])
}

#[test]
fn segmented_starts_have_a_size_or_none(rt: HostRuntime) {
    let announced = Request::InitiateDownload {
        multiplexor: RAMP,
        transfer: Transfer::Segmented {
            size: Some(0x04030201),
        },
    };
    let unknown = Request::InitiateDownload {
        multiplexor: RAMP,
        transfer: Transfer::Segmented { size: None },
    };
    assert_eq!(rt; announced.to_bytes(), [0x21, 0, 0x20, 1, 1, 2, 3, 4]);
    assert!(rt; Request::from_bytes([0x21, 0, 0x20, 1, 1, 2, 3, 4]) == Some(announced));
    assert_eq!(rt; unknown.to_bytes(), [0x20, 0, 0x20, 1, 0, 0, 0, 0]);
    assert!(rt; Request::from_bytes([0x20, 0, 0x20, 1, 1, 2, 3, 4]) == Some(unknown));
}

#[test]
fn aborts_carry_listed_and_other_codes(rt: HostRuntime) {
    let refused = Answer::Abort {
        multiplexor: RAMP,
        code: AbortCode::ReadOnly,
    };
    assert_eq!(rt; refused.to_bytes(), [0x80, 0, 0x20, 1, 2, 0, 1, 6]);
    assert!(rt; Answer::from_bytes([0x9f, 0, 0x20, 1, 2, 0, 1, 6]) == Some(refused));
    let odd = Request::Abort {
        multiplexor: RAMP,
        code: AbortCode::from(0x06040043),
    };
    assert!(rt; Request::from_bytes([0x80, 0, 0x20, 1, 0x43, 0, 4, 6]) == Some(odd));
    assert!(rt; AbortCode::from(0x08000000) == AbortCode::GeneralError);
    assert_eq!(rt; AbortCode::from(1).words(), "code not listed");
}

/// A code, its number and its words.
struct Listed(AbortCode, u32, &'static str);

/// The codes of CiA 301 that have a name here.
#[rattlefmt::skip]
const LISTED: [Listed; 16] = [
    Listed(AbortCode::ToggleNotAlternated, 0x0503_0000, "toggle bit not alternated"),
    Listed(AbortCode::TimedOut, 0x0504_0000, "SDO protocol timed out"),
    Listed(AbortCode::UnknownCommand, 0x0504_0001, "command specifier not valid or unknown"),
    Listed(AbortCode::InvalidBlockSize, 0x0504_0002, "invalid block size"),
    Listed(AbortCode::InvalidSequenceNumber, 0x0504_0003, "invalid sequence number"),
    Listed(AbortCode::CrcError, 0x0504_0004, "CRC error"),
    Listed(AbortCode::OutOfMemory, 0x0504_0005, "out of memory"),
    Listed(AbortCode::WriteOnly, 0x0601_0001, "attempt to read a write-only object"),
    Listed(AbortCode::ReadOnly, 0x0601_0002, "attempt to write a read-only object"),
    Listed(AbortCode::NoObject, 0x0602_0000, "object does not exist in the object dictionary"),
    Listed(AbortCode::LengthMismatch, 0x0607_0010, "length of the data does not match"),
    Listed(AbortCode::LengthTooHigh, 0x0607_0012, "length of the data too high"),
    Listed(AbortCode::LengthTooLow, 0x0607_0013, "length of the data too low"),
    Listed(AbortCode::NoSubindex, 0x0609_0011, "subindex does not exist"),
    Listed(AbortCode::InvalidValue, 0x0609_0030, "invalid value for the parameter"),
    Listed(AbortCode::GeneralError, 0x0800_0000, "general error"),
];

#[test]
fn codes_have_their_numbers_and_words(rt: HostRuntime) {
    for &Listed(code, number, words) in &LISTED {
        assert_eq!(rt; u32::from(code), number);
        assert!(rt; AbortCode::from(number) == code);
        assert_eq!(rt; code.words(), words);
    }
}

#[test]
fn frames_are_written_as_candump_writes_them(rt: HostRuntime) -> Result<(), Fail> {
    let heap = rt.alloc();
    let request = write(&[0xe8, 3])?.to_frame(NodeNumber::nearest(5));
    let written = Answer::InitiateDownload { multiplexor: RAMP };
    let answer = written.to_frame(NodeNumber::nearest(127));
    let code = AbortCode::NoSubindex;
    assert_eq!(rt;
        format!(in heap; "{request}")?.as_str(),
        "605#2B002001E8030000"
    );
    assert_eq!(rt;
        format!(in heap; "{answer}")?.as_str(),
        "5FF#6000200100000000"
    );
    assert_eq!(rt; format!(in heap; "{code}")?.as_str(), "0609 0011");
    assert_eq!(rt; format!(in heap; "{RAMP}")?.as_str(), "2000:01");
    Ok(())
}

#[test]
fn identifiers_have_eleven_bits(rt: HostRuntime) {
    assert!(rt; Identifier::new(2047).is_some());
    assert!(rt; Identifier::new(2048).is_none());
}

#[test]
fn node_numbers_are_pulled_into_range(rt: HostRuntime) {
    assert_eq!(rt; NodeNumber::nearest(0).number(), 1);
    assert_eq!(rt; NodeNumber::nearest(127).number(), 127);
    assert_eq!(rt; NodeNumber::nearest(255).number(), 127);
}
