//! Segments and blocks as CiA 301 shows them, and what no correct partner sends.
use sdo::{
    Answer, BlockRequest, BlockSize, CrcOffer, ExpeditedData, Request, Segment, SegmentData,
    SequenceNumber, Toggle, Transfer, UnusedBytes, segment,
};
use std::process::Abort;
use std::test::Fail;
use wire::{AbortCode, Multiplexor};

const TABLE: Multiplexor = Multiplexor {
    index: 0x2001,
    subindex: 0,
};

/// These bytes as a segment's data.
fn data(value: &[u8]) -> Result<SegmentData, Fail> {
    SegmentData::new(value).ok_or_else(|| Fail::new("more than seven bytes"))
}

/// Checks that these bytes are a last write segment, with toggle 1, of that value.
fn check_last(rt: &impl Abort, bytes: [u8; 8], value: &[u8]) -> Result<(), Fail> {
    let segment = Request::DownloadSegment(Segment {
        toggle: Toggle::One,
        bytes: data(value)?,
        last: true,
    });
    assert!(rt; Request::from_bytes(bytes) == Some(segment));
    Ok(())
}

/// Checks that these bytes are a block segment with that mark, number and data.
fn check_block(
    rt: &impl Abort,
    bytes: [u8; 8],
    last: bool,
    number: u8,
    data: [u8; 7],
) -> Result<(), Fail> {
    let number = SequenceNumber::new(number).ok_or_else(|| Fail::new("more than 127"))?;
    let segment = BlockRequest::Segment { last, number, data };
    assert!(rt; BlockRequest::from_bytes(bytes) == segment);
    Ok(())
}

#[test]
fn kinds_5_and_7_are_no_requests(rt: HostRuntime) {
    for command in [0xa0, 0xa1, 0xbf, 0xe0, 0xff] {
        assert!(rt; Request::from_bytes([command, 1, 0x20, 0, 0, 0, 0, 0]) == None);
    }
}

#[test]
fn kinds_6_and_7_are_no_answers(rt: HostRuntime) {
    for command in [0xc0, 0xc6, 0xdf, 0xe0, 0xff] {
        assert!(rt; Answer::from_bytes([command, 1, 0x20, 0, 0, 0, 0, 0]) == None);
    }
}

#[test]
fn kind_5_with_both_low_bits_is_no_answer(rt: HostRuntime) {
    for command in [0xa3, 0xa7, 0xbf] {
        assert!(rt; Answer::from_bytes([command, 1, 0x20, 0, 0, 0, 0, 0]) == None);
    }
}

#[test]
fn all_of_kind_4_aborts_outside_of_block_reception(rt: HostRuntime) {
    let abort = Request::Abort {
        multiplexor: TABLE,
        code: AbortCode::TimedOut,
    };
    for command in [0x80, 0x81, 0x9f] {
        assert!(rt; Request::from_bytes([command, 1, 0x20, 0, 0, 0, 4, 5]) == Some(abort));
    }
}

#[test]
fn only_80_aborts_in_block_reception(rt: HostRuntime) -> Result<(), Fail> {
    let abort = BlockRequest::Abort {
        multiplexor: TABLE,
        code: AbortCode::TimedOut,
    };
    assert!(rt; BlockRequest::from_bytes([0x80, 1, 0x20, 0, 0, 0, 4, 5]) == abort);
    let rest = [1, 0x20, 0, 0, 0, 4, 5];
    check_block(&rt, [0x81, 1, 0x20, 0, 0, 0, 4, 5], true, 1, rest)?;
    check_block(&rt, [0x9f, 1, 0x20, 0, 0, 0, 4, 5], true, 31, rest)
}

#[test]
fn every_other_command_is_a_block_segment(rt: HostRuntime) -> Result<(), Fail> {
    let rest = [1, 2, 3, 4, 5, 6, 7];
    check_block(&rt, [0x00, 1, 2, 3, 4, 5, 6, 7], false, 0, rest)?;
    check_block(&rt, [0x23, 1, 2, 3, 4, 5, 6, 7], false, 35, rest)?;
    check_block(&rt, [0x7f, 1, 2, 3, 4, 5, 6, 7], false, 127, rest)?;
    check_block(&rt, [0xff, 1, 2, 3, 4, 5, 6, 7], true, 127, rest)
}

#[test]
fn a_last_segment_with_number_0_is_sent_as_an_abort(rt: HostRuntime) -> Result<(), Fail> {
    let number = SequenceNumber::new(0).ok_or_else(|| Fail::new("no number 0"))?;
    let segment = BlockRequest::Segment {
        last: true,
        number,
        data: [0; 7],
    };
    assert_eq!(rt; segment.to_bytes(), [0x80, 0, 0, 0, 0, 0, 0, 0]);
    assert!(rt; SequenceNumber::new(128).is_none());
    Ok(())
}

#[test]
fn segments_as_they_are_sent(rt: HostRuntime) -> Result<(), Fail> {
    let write = Request::DownloadSegment(Segment {
        toggle: Toggle::One,
        bytes: data(&[1, 2])?,
        last: false,
    });
    assert_eq!(rt; write.to_bytes(), [0x1a, 1, 2, 0, 0, 0, 0, 0]);
    let given = Answer::UploadSegment(Segment {
        toggle: Toggle::Zero,
        bytes: data(b"loader")?,
        last: true,
    });
    assert_eq!(rt;
        given.to_bytes(),
        [0x03, 0x6c, 0x6f, 0x61, 0x64, 0x65, 0x72, 0]
    );
    assert!(rt; SegmentData::new(&[0; 8]).is_none());
    Ok(())
}

#[test]
fn bytes_behind_a_segments_data_are_dropped(rt: HostRuntime) -> Result<(), Fail> {
    check_last(&rt, [0x1b, 1, 2, 0xff, 0xff, 0xff, 0xff, 0xff], &[1, 2])?;
    check_last(&rt, [0x11, 1, 2, 3, 4, 5, 6, 7], &[1, 2, 3, 4, 5, 6, 7])
}

#[test]
fn a_segment_may_have_no_bytes(rt: HostRuntime) -> Result<(), Fail> {
    check_last(&rt, [0x1f, 1, 2, 3, 4, 5, 6, 7], &[])?;
    let given = Answer::UploadSegment(Segment {
        toggle: Toggle::Zero,
        bytes: data(&[])?,
        last: false,
    });
    assert!(rt; Answer::from_bytes([0x0e, 1, 2, 3, 4, 5, 6, 7]) == Some(given));
    Ok(())
}

#[test]
fn toggles_alternate_and_other_bits_are_ignored(rt: HostRuntime) {
    let asked = Request::UploadSegment {
        toggle: Toggle::Zero.other(),
    };
    assert_eq!(rt; asked.to_bytes(), [0x70, 0, 0, 0, 0, 0, 0, 0]);
    assert!(rt; Request::from_bytes([0x7f, 1, 2, 3, 4, 5, 6, 7]) == Some(asked));
    let taken = Answer::DownloadSegment {
        toggle: Toggle::One.other(),
    };
    assert_eq!(rt; taken.to_bytes(), [0x20, 0, 0, 0, 0, 0, 0, 0]);
    assert!(rt; Answer::from_bytes([0x2f, 1, 2, 3, 4, 5, 6, 7]) == Some(taken));
}

#[test]
fn a_read_answered_expedited_without_a_size_has_four_bytes(rt: HostRuntime) -> Result<(), Fail> {
    let data = ExpeditedData::new(&[1, 2, 3, 4]).ok_or_else(|| Fail::new("not one to four bytes"))?;
    let given = Answer::InitiateUpload {
        multiplexor: TABLE,
        transfer: Transfer::Expedited { data },
    };
    assert!(rt; Answer::from_bytes([0x42, 1, 0x20, 0, 1, 2, 3, 4]) == Some(given));
    assert!(rt; Answer::from_bytes([0x5e, 1, 0x20, 0, 1, 2, 3, 4]) == Some(given));
    Ok(())
}

#[test]
fn block_starts_with_size_and_crc(rt: HostRuntime) {
    let start = Request::InitiateBlockDownload {
        multiplexor: TABLE,
        crc: CrcOffer::Offered,
        size: Some(9),
    };
    assert_eq!(rt; start.to_bytes(), [0xc6, 1, 0x20, 0, 9, 0, 0, 0]);
    assert!(rt; Request::from_bytes([0xde, 1, 0x20, 0, 9, 0, 0, 0]) == Some(start));
}

#[test]
fn block_starts_without_size_or_crc(rt: HostRuntime) {
    let bare = Request::InitiateBlockDownload {
        multiplexor: TABLE,
        crc: CrcOffer::NotOffered,
        size: None,
    };
    assert_eq!(rt; bare.to_bytes(), [0xc0, 1, 0x20, 0, 0, 0, 0, 0]);
    assert!(rt; Request::from_bytes([0xc0, 1, 0x20, 0, 9, 0, 0, 0]) == Some(bare));
    let unchecked = Request::InitiateBlockDownload {
        multiplexor: TABLE,
        crc: CrcOffer::NotOffered,
        size: Some(9),
    };
    assert!(rt; Request::from_bytes([0xc2, 1, 0x20, 0, 9, 0, 0, 0]) == Some(unchecked));
}

#[test]
fn block_ends_have_their_unused_bytes_and_crc(rt: HostRuntime) -> Result<(), Fail> {
    let unused = UnusedBytes::new(5).ok_or_else(|| Fail::new("more than seven"))?;
    let end = Request::EndBlockDownload {
        unused,
        crc: 0x31c3,
    };
    assert_eq!(rt; end.to_bytes(), [0xd5, 0xc3, 0x31, 0, 0, 0, 0, 0]);
    assert!(rt; Request::from_bytes([0xd7, 0xc3, 0x31, 9, 9, 9, 9, 9]) == Some(end));
    assert!(rt; UnusedBytes::new(8).is_none());
    Ok(())
}

#[test]
fn block_sizes_in_answers_are_read_as_they_stand(rt: HostRuntime) {
    for size in [0, 255] {
        let started = Answer::InitiateBlockDownload {
            multiplexor: TABLE,
            crc: CrcOffer::Offered,
            block_size: size,
        };
        assert!(rt; Answer::from_bytes([0xa4, 1, 0x20, 0, size, 9, 9, 9]) == Some(started));
        let acknowledged = Answer::AcknowledgeBlock {
            last_kept: 200,
            block_size: size,
        };
        assert!(rt; Answer::from_bytes([0xbe, 200, size, 9, 9, 9, 9, 9]) == Some(acknowledged));
        assert!(rt; BlockSize::new(size).is_none());
    }
    assert!(rt; Answer::from_bytes([0xbd, 9, 9, 9, 9, 9, 9, 9]) == Some(Answer::EndBlockDownload));
}

#[test]
fn block_sizes_are_pulled_into_range(rt: HostRuntime) {
    assert_eq!(rt; BlockSize::nearest(0).number(), 1);
    assert_eq!(rt; BlockSize::nearest(255).number(), 127);
}

#[test]
fn segments_of_nine_bytes(rt: HostRuntime) {
    let value = b"123456789";
    assert_eq!(rt; segment(value, 0), b"".as_slice());
    assert_eq!(rt; segment(value, 1), b"1234567".as_slice());
    assert_eq!(rt; segment(value, 2), b"89".as_slice());
    assert_eq!(rt; segment(value, 3), b"".as_slice());
    assert_eq!(rt; segment(value, usize::MAX), b"".as_slice());
}
