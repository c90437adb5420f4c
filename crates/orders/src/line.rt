//! Orders read from lines.
ghost use Rattle.std.specs.Prelude.{◌≡◌, ℕ, List, MatchResult};
ghost use Rattle.std.specs.Iterator.{IsFinite, AlwaysYields};
ghost use Rattle.orders.specs.Hex.{multiplexor_in};
ghost use Rattle.orders.specs.Lines.{is_comment, without_return, value_in, order_by_method, order_at, order_in, line_meaning, ReadsOrder, Reads};
ghost use Rattle.orders.specs.Pieces.{words};
ghost use Rattle.orders.specs.Methods.{method_for};

use crate::fault::Fault;
use crate::hex::{read_byte, read_multiplexor};
use crate::method::read_method;
use crate::order::Order;
use arrayvec::ArrayVec;
use master::Method;
use std::alloc::Global;
use wire::{LONGEST, Multiplexor};

/// Bytes of an order whose line is still read: memory is asked for only once the line is known to be an order.
pub(crate) type Scratch = ArrayVec<u8, LONGEST>;

/// Whether a line is a comment.
fn is_comment(line: &[u8]) -> bool
    ensures { result ≡ is_comment line.now }
{
    line.starts_with(b"#")
}

/// A line but for a carriage return at its end.
pub fn without_return(line: &[u8]) -> &[u8]
    ensures { result.now ≡ without_return line.now }
{
    line.strip_suffix(b"\r").unwrap_or(line)
}

/// Puts the bytes that words write in place of what was there.
fn read_bytes<'a, W: Iterator<Item = &'a [u8]> + Drop>(
    bytes: &mut Scratch,
    words: W,
) -> Result<(), Fault>
    requires can { W.can_next words }
    requires ends { IsFinite (W.remaining words) }
    ensures { (ws : List (List ℕ)) → AlwaysYields W.next_gives (λ w. w.now) words ws → MatchResult result (λ done. value_in ws ≡ Ok bytes.new.items) (λ f. value_in ws ≡ Err f) }
{
    bytes.clear();
    for word in words {
        let byte = read_byte(word).ok_or(Fault::NotByte(bytes.len() + 1))?;
        bytes.try_push(byte).map_err(|_| Fault::TooManyBytes)?;
    }
    if bytes.is_empty() {
        return Err(Fault::NoBytes);
    }
    Ok(())
}

/// The order of a value, unless the method has no room for it.
fn order_of(
    heap: Global,
    named: Option<Method>,
    multiplexor: Multiplexor,
    bytes: &[u8],
) -> Result<Order, Fault>
    ensures { ReadsOrder result (order_by_method (method_for named bytes.now) multiplexor bytes.now) }
{
    let method = named.unwrap_or(Method::fitting(bytes.len()));
    if !method.takes(bytes.len()) {
        return Err(Fault::NotExpedited);
    }
    let value = Vec::from_slice(heap, bytes)?;
    Ok(Order {
        method,
        multiplexor,
        value,
    })
}

/// The order that a word and those behind it write, whose method is named or not.
fn read_rest<'a, W: Iterator<Item = &'a [u8]> + Drop>(
    heap: Global,
    scratch: &mut Scratch,
    named: Option<Method>,
    word: &[u8],
    rest: W,
) -> Result<Order, Fault>
    requires can { W.can_next rest }
    requires ends { IsFinite (W.remaining rest) }
    ensures { (ws : List (List ℕ)) → AlwaysYields W.next_gives (λ w. w.now) rest ws → ReadsOrder result (order_at named (multiplexor_in word.now) ws) }
{
    let multiplexor = read_multiplexor(word).ok_or(Fault::NotMultiplexor)?;
    read_bytes(scratch, rest)?;
    order_of(heap, named, multiplexor, scratch.as_slice())
}

/// The order that the words of a line write, or none where there are no words.
fn read_order(heap: Global, scratch: &mut Scratch, line: &[u8]) -> Result<Option<Order>, Fault>
    ensures { Reads result (order_in (words line.now)) }
{
    let mut words = line
        .split(|b| *b == b' ' || *b == b'\t')
        .filter(|word| !word.is_empty());
    let Some(first) = words.next() else {
        return Ok(None);
    };
    let named = read_method(first);
    if named.is_none() {
        return Ok(Some(read_rest(heap, scratch, None, first, words)?));
    }
    let second = words.next().ok_or(Fault::NotMultiplexor)?;
    Ok(Some(read_rest(heap, scratch, named, second, words)?))
}

/// The order on a line, or none on a line to pass over; else the `Fault` that is met first, which may be want of memory.
pub fn read_line(heap: Global, line: &[u8]) -> Result<Option<Order>, Fault>
    ensures { Reads result (line_meaning line.now) }
{
    if line.is_empty() || is_comment(line) {
        return Ok(None);
    }
    read_order(heap, &mut Scratch::new(), without_return(line))
}

/// The same, with bytes that it may use; what it leaves in them is of no use to anyone.
pub(crate) fn read_line_with(
    heap: Global,
    scratch: &mut Scratch,
    line: &[u8],
) -> Result<Option<Order>, Fault>
    ensures { Reads result (line_meaning line.now) }
{
    if line.is_empty() || is_comment(line) {
        return Ok(None);
    }
    read_order(heap, scratch, without_return(line))
}
