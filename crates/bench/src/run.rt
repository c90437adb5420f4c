//! A list of calls, made one after the other on a new bench.
ghost use Rattle.std.specs.Prelude.{◌≡◌, List, length, is_ok, nat_le, vec_capacity, IfOk, IfErr};
ghost use Rattle.bench.specs.Law.Runs.{Event, Happens};
ghost use Rattle.bench.specs.Law.Law.{LawThroughout};
ghost use Rattle.bench.specs.Numbers.{nearest_number, nearest_size};
ghost use Rattle.bench.specs.States.{state_of};
ghost use Rattle.bench.specs.Answers.{Tied};

use crate::bench::Bench;
use crate::call::Call;
use crate::response::Response;
use crate::session::Session;
use dictionary::Writable;
use line::Line;

/// A session in which calls were made, and the answer to each.
pub type Ran<L, D> = (Session<Bench<L, D>>, Vec<Response>);

/// Makes a bench and each of some calls on it, in their order. The answers take the place of what is in a vector that is
/// handed in; where it has no room for all of them, no call is made, and line, dictionary and vector come back.
pub fn run_calls<L: Line, D: Writable>(
    node: u8,
    block_size: u8,
    line: L,
    dictionary: D,
    calls: &[Call],
    mut answers: Vec<Response>,
) -> Result<Ran<L, D>, (L, D, Vec<Response>)>
    ensures room { is_ok result ≡ nat_le (length calls.now) (vec_capacity answers) }
    ensures law { IfOk result (λ ran. (es : List Event) × Tied calls.now ran.1.items es × LawThroughout (D.Readable.meaning dictionary) (nearest_number node) (nearest_size block_size) es (state_of L.Line.shows D.Readable.meaning ran.0.bench)) }
    ensures returned { IfErr result (λ back. (back.0 ≡ line) × (back.1 ≡ dictionary) × (back.2 ≡ answers)) }
{
    if answers.capacity() < calls.len() {
        return Err((line, dictionary, answers));
    }
    answers.clear();
    let mut session = Session::new(node, block_size, line, dictionary);
    for call in calls {
        answers.push_reserved(session.act(*call));
    }
    Ok((session, answers))
}
