//! What the tests of a master of node 5 have in common.
use master::{
    Aborted, BeginRefusal, Begun, Finder, Frames, Heard, Hearing, Master, Method, Sending,
};
use std::process::Abort;
use std::test::Fail;
use wire::{AbortCode, Frame, Identifier, Multiplexor, NodeNumber};

/// The digits 1 to 9.
pub(crate) const DIGITS: [u8; 9] = [0x31, 0x32, 0x33, 0x34, 0x35, 0x36, 0x37, 0x38, 0x39];

/// Where the tests write and read.
pub(crate) const PLACE: Multiplexor = Multiplexor {
    index: 0x2001,
    subindex: 0,
};

/// A master of node 5 that has begun nothing.
pub(crate) fn fresh() -> Master {
    Master::new(NodeNumber::nearest(5))
}

/// The transfer that was begun.
pub(crate) fn begun(answer: Result<Begun<'_>, BeginRefusal>) -> Result<Begun<'_>, Fail> {
    answer.map_err(|_| Fail::new("refused"))
}

/// Why no transfer was begun.
pub(crate) fn refusal(answer: Result<Begun<'_>, BeginRefusal>) -> Result<BeginRefusal, Fail> {
    answer.err().ok_or_else(|| Fail::new("begun"))
}

/// A master that has begun to write to 2001:00.
pub(crate) fn writing(method: Method, value: &[u8]) -> Result<Master, Fail> {
    let mut master = fresh();
    begun(master.begin_write(method, PLACE, value))?;
    Ok(master)
}

/// A master that has begun to read 2001:00.
pub(crate) fn reading() -> Result<Master, Fail> {
    let mut master = fresh();
    begun(master.begin_read(PLACE))?;
    Ok(master)
}

/// A master that reads 2001:00 in segments, and has asked for the first.
pub(crate) fn reading_segments(size: u8) -> Result<Master, Fail> {
    let mut master = reading()?;
    let _ = hear(&mut master, [0x41, 1, 0x20, 0, size, 0, 0, 0]);
    Ok(master)
}

/// A master that has sent the digits as one sub-block.
pub(crate) fn writing_block() -> Result<Master, Fail> {
    let mut master = writing(Method::Block, &DIGITS)?;
    let _ = hear(&mut master, [0xa4, 1, 0x20, 0, 127, 0, 0, 0]);
    Ok(master)
}

/// An open transfer of 2001:00, by the answer that is awaited.
#[derive(Clone, Copy)]
pub(crate) enum Awaited {
    ExpeditedDownload,
    InitiateDownload,
    DownloadSegment,
    InitiateUpload,
    UploadSegment,
    InitiateBlockDownload,
    BlockDownload,
    EndBlockDownload,
}

/// All of them, each with a command of the kind that is awaited.
pub(crate) const ALL_AWAITED: [(Awaited, u8); 8] = [
    (Awaited::ExpeditedDownload, 0x60),
    (Awaited::InitiateDownload, 0x60),
    (Awaited::DownloadSegment, 0x20),
    (Awaited::InitiateUpload, 0x43),
    (Awaited::UploadSegment, 0),
    (Awaited::InitiateBlockDownload, 0xa0),
    (Awaited::BlockDownload, 0xa2),
    (Awaited::EndBlockDownload, 0xa1),
];

/// A master with an open transfer that awaits an answer.
pub(crate) fn awaiting(awaited: Awaited) -> Result<Master, Fail> {
    match awaited {
        Awaited::ExpeditedDownload => writing(Method::Expedited, &[1]),
        Awaited::InitiateDownload => writing(Method::Segmented, &DIGITS),
        Awaited::DownloadSegment => {
            let mut master = writing(Method::Segmented, &DIGITS)?;
            let _ = hear(&mut master, [0x60, 1, 0x20, 0, 0, 0, 0, 0]);
            Ok(master)
        }
        Awaited::InitiateUpload => reading(),
        Awaited::UploadSegment => reading_segments(9),
        Awaited::InitiateBlockDownload => writing(Method::Block, &DIGITS),
        Awaited::BlockDownload => writing_block(),
        Awaited::EndBlockDownload => {
            let mut master = writing_block()?;
            let _ = hear(&mut master, [0xa2, 2, 127, 0, 0, 0, 0, 0]);
            Ok(master)
        }
    }
}

/// Lets a master hear a frame of node 5.
pub(crate) fn hear(master: &mut Master, bytes: [u8; 8]) -> Hearing<'_> {
    let identifier = Identifier::of_answers(NodeNumber::nearest(5));
    master.hear(Some(Frame { identifier, bytes }))
}

/// Checks that these frames go to node 5, and no others.
pub(crate) fn check_frames(
    rt: &impl Abort,
    mut frames: Frames<'_>,
    expected: &[[u8; 8]],
) -> Result<(), Fail> {
    for bytes in expected {
        let frame = frames.next().ok_or_else(|| Fail::new("no frame"))?;
        assert!(rt; frame.identifier.number() == 0x605);
        assert!(rt; frame.bytes == *bytes);
    }
    assert!(rt; frames.next().is_none());
    Ok(())
}

/// Checks that an answer brings one frame.
pub(crate) fn check_goes_on(
    rt: &impl Abort,
    master: &mut Master,
    heard: [u8; 8],
    sent: [u8; 8],
) -> Result<(), Fail> {
    let hearing = hear(master, heard);
    assert!(rt; hearing.heard == Heard::Sent);
    assert!(rt; !hearing.sending.quiet);
    check_frames(rt, hearing.sending.frames, &[sent])
}

/// Checks that an answer ends the transfer by success.
pub(crate) fn check_done(rt: &impl Abort, master: &mut Master, heard: [u8; 8]) -> Result<(), Fail> {
    let hearing = hear(master, heard);
    assert!(rt; hearing.heard == Heard::Over);
    assert!(rt; !hearing.sending.quiet);
    check_frames(rt, hearing.sending.frames, &[])?;
    match master.ending() {
        Some(Ok(())) => Ok(()),
        _ => Err(Fail::new("not done")),
    }
}

/// The failure of a master's transfer.
pub(crate) fn failure(master: &Master) -> Result<Aborted, Fail> {
    match master.ending() {
        Some(Err(failure)) => Ok(failure),
        _ => Err(Fail::new("not failed")),
    }
}

/// Checks that an answer lets the master end the transfer: the line is quieted, and an abort of 2001:00 is sent.
pub(crate) fn check_found(
    rt: &impl Abort,
    master: &mut Master,
    heard: [u8; 8],
    code: AbortCode,
) -> Result<(), Fail> {
    let hearing = hear(master, heard);
    assert!(rt; hearing.heard == Heard::Over);
    check_abort(rt, hearing.sending, code)?;
    check_failed(rt, master, code)
}

/// Checks that the line is quieted, and an abort of 2001:00 is sent.
pub(crate) fn check_abort(
    rt: &impl Abort,
    sending: Sending<'_>,
    code: AbortCode,
) -> Result<(), Fail> {
    let [a, b, c, d] = u32::from(code).to_le_bytes();
    assert!(rt; sending.quiet);
    check_frames(rt, sending.frames, &[[0x80, 1, 0x20, 0, a, b, c, d]])
}

/// Checks that the master itself has ended the transfer.
pub(crate) fn check_failed(rt: &impl Abort, master: &Master, code: AbortCode) -> Result<(), Fail> {
    let failure = failure(master)?;
    assert!(rt; failure.code == code);
    assert!(rt; failure.finder == Finder::Master);
    Ok(())
}
