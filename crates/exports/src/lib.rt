//! Functions that C can call. The benchmark measures them.
#![tactic(auto)]

ghost use Rattle.std.specs.Prelude.{◌≡◌};
ghost use Rattle.crc.specs.Registers.{crc};
ghost use Rattle.exports.specs.Again.{request_again, answer_again, each};

mod transfers;

use crc::checksum;
use sdo::{Answer, Request};

/// What stands for bytes that are no frame of a direction.
const NO_FRAME: [u8; 8] = [0xff; 8];

/// The check value of some bytes.
#[unsafe(no_mangle)]
pub extern "C" fn wontazhil_crc(bytes: &[u8]) -> u16
    ensures { result ≡ crc bytes.now }
{
    checksum(bytes)
}

/// The bytes of four frames.
#[repr(C)]
#[derive(Clone, Copy)]
pub struct FourFrames {
    pub first: [u8; 8],
    pub second: [u8; 8],
    pub third: [u8; 8],
    pub fourth: [u8; 8],
}

/// Reads each of four frames as a request, and makes it again; one that is none has all bits set.
#[unsafe(no_mangle)]
pub extern "C" fn wontazhil_requests(frames: &mut FourFrames)
    ensures { frames.new ≡ each request_again frames.old }
{
    make_again(
        frames,
        |bytes|
            ensures { result ≡ request_again bytes }
        {
            match Request::from_bytes(bytes) {
                Some(request) => request.to_bytes(),
                None => NO_FRAME,
            }
        },
    );
}

/// Reads each of four frames as an answer, and makes it again; one that is none has all bits set.
#[unsafe(no_mangle)]
pub extern "C" fn wontazhil_answers(frames: &mut FourFrames)
    ensures { frames.new ≡ each answer_again frames.old }
{
    make_again(
        frames,
        |bytes|
            ensures { result ≡ answer_again bytes }
        {
            match Answer::from_bytes(bytes) {
                Some(answer) => answer.to_bytes(),
                None => NO_FRAME,
            }
        },
    );
}

/// Puts in place of each of four frames what is made of it.
fn make_again<F: Fn([u8; 8]) -> [u8; 8]>(frames: &mut FourFrames, made: F)
    requires { F.IsAlwaysCallable made }
    ensures first { F.post made frames.old.first frames.new.first }
    ensures second { F.post made frames.old.second frames.new.second }
    ensures third { F.post made frames.old.third frames.new.third }
    ensures fourth { F.post made frames.old.fourth frames.new.fourth }
{
    frames.first = made(frames.first);
    frames.second = made(frames.second);
    frames.third = made(frames.third);
    frames.fourth = made(frames.fourth);
}
