//! Transfers written down, frame by frame.
ghost use Rattle.std.specs.Prelude.{◌≤◌, length};

use arrayvec::ArrayVec;
use bench::{Bench, Session, Steppable};
use dictionary::{Table, sample};
use line::{End, MemoryLine, Recorder, Recording, Sent};
use master::{BeginRefusal, Method};
use report::{Failure, Outcome, Report};
use rounds::{Unwatched, carry_out};
use wire::{LONGEST, Multiplexor};

/// How many frames are kept: more than a write in segments, one by block and three reads of 1,024 bytes send, which are 1,337.
const FRAMES: usize = 1600;

/// How many bytes a trace takes at most: more than 11 for each frame that is kept, 20 for each of six transfers, 2 for the number of
/// values set and 1,024 of the buffer.
const ROOM: usize = 20_000;

type Bytes = ArrayVec<u8, ROOM>;

type Traced = Session<Bench<Recorder<MemoryLine, FRAMES>, Table>>;

/// Writes a value to an entry by each method, reads the entry after each, and puts into a buffer every frame that was sent,
/// what was told, how many values the node has set and the bytes that were read last. Tells how many bytes that takes; 0 where the
/// buffer is too short.
#[unsafe(no_mangle)]
pub extern "C" fn wontazhil_trace(index: u16, subindex: u8, value: &[u8], trace: &mut [u8]) -> usize
    ensures { result ≤ length trace.old }
{
    let bytes = traced(Multiplexor { index, subindex }, value);
    if trace.len() < bytes.len() {
        return 0;
    }
    trace[..bytes.len()].copy_from_slice(&bytes);
    bytes.len()
}

/// What writes and reads of an entry send and tell.
fn traced(multiplexor: Multiplexor, value: &[u8]) -> Bytes {
    let line = Recorder::new(MemoryLine::new());
    let mut session: Traced = Session::new(5, 127, line, sample());
    let mut buffer = [0; LONGEST];
    let mut told = Bytes::new();
    for method in [Method::Expedited, Method::Segmented, Method::Block] {
        let begun = session.begin_write(method, multiplexor, value);
        tell(
            &mut told,
            begun,
            carry_out(&mut session, &mut buffer, &mut Unwatched),
        );
        let begun = session.begin_read(multiplexor);
        tell(
            &mut told,
            begun,
            carry_out(&mut session, &mut buffer, &mut Unwatched),
        );
    }
    let mut bytes = Bytes::new();
    for sent in session.bench().line().since(0) {
        put_frame(&mut bytes, *sent);
    }
    put(&mut bytes, &told);
    put(&mut bytes, &session.bench().commits().to_le_bytes());
    put(&mut bytes, &buffer);
    let _ = session.close(&mut buffer);
    bytes
}

/// Puts some bytes behind the others, where there is room.
fn put(bytes: &mut Bytes, more: &[u8]) {
    let _ = bytes.try_extend_from_slice(more);
}

/// The end that a frame was for, its identifier and its bytes.
fn put_frame(bytes: &mut Bytes, sent: Sent) {
    put(bytes, &[(sent.to == End::Node) as u8]);
    put(bytes, &sent.frame.identifier.number().to_le_bytes());
    put(bytes, &sent.frame.bytes);
}

/// The refusal of a begin, and the report.
fn tell(bytes: &mut Bytes, begun: Result<u16, BeginRefusal>, report: Option<Report>) {
    let refusal = match begun {
        Ok(_) => 0,
        Err(refusal) => u8::from(refusal),
    };
    put(bytes, &[refusal]);
    match report.map(|report| report.outcome) {
        None => put(bytes, &[0; 19]),
        Some(Outcome::Written) => put_success(bytes, 1, 0),
        Some(Outcome::Read { length }) => put_success(bytes, 2, length),
        Some(Outcome::Unwritten(failure)) => put_failure(bytes, 3, failure),
        Some(Outcome::Undecided(failure)) => put_failure(bytes, 4, failure),
        Some(Outcome::Unread(failure)) => put_failure(bytes, 5, failure),
    }
}

/// A transfer that succeeded, and how many bytes a read brought.
fn put_success(bytes: &mut Bytes, outcome: u8, length: usize) {
    put(bytes, &[outcome]);
    put(bytes, &[0; 10]);
    put(bytes, &length.to_le_bytes());
}

/// A transfer that failed, where and why.
fn put_failure(bytes: &mut Bytes, outcome: u8, failure: Failure) {
    put(bytes, &[outcome, u8::from(failure.layer)]);
    put(bytes, &failure.multiplexor.index.to_le_bytes());
    put(bytes, &[failure.multiplexor.subindex]);
    put(bytes, &u32::from(failure.code).to_le_bytes());
    put(bytes, &failure.segment.to_le_bytes());
    put(bytes, &[0; 8]);
}
