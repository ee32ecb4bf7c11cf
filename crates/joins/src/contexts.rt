// The join of two contexts.
ghost use Rattle.std.specs.Prelude.{◌≡◌, ℕ, ◌+◌, ◌*◌, ◌^◌, ◌<◌, length, replicate, cond, nat_lt, Ok, Err};
ghost use Rattle.faults.specs.Causes.{long_context};
ghost use Rattle.models.specs.Automaton.{stopped};
ghost use Rattle.joinlaw.specs.Bridges.{join as join_of};
ghost use Rattle.joinlaw.specs.Laws.{JoinIs};
ghost use Rattle.joins.specs.Answers.{passed_or, passed, joined as joined_of, answer as answer_of, text_after, work_after};

use crate::answers::Joined;
use crate::marks::Marks;
use crate::rows::append;
use automata::{Automaton, check};
use faults::Fault;

// The most letters that a context may have.
const MOST: usize = 50000;

// Whether a context is short enough.
fn short<K: Copy>(context: &[K]) -> Result<(), Fault>
    ensures { result ≡ cond (nat_lt 50000 (length context.now)) (Err (long_context (length context.now))) (Ok tt) }
{
    if context.len() > MOST {
        return Err(Fault::LongContext(context.len()));
    }
    Ok(())
}

// Whether a context passes alone; the places in it are counted from `from`.
fn alone<S: Automaton>(automaton: &S, context: &[S::Kind], from: usize) -> Result<(), Fault>
    requires { from + length context.now < 2 ^ 62 }
    ensures { result ≡ passed_or (stopped (S.model automaton.now) context.now) from (Ok tt) }
{
    match check(automaton, context) {
        Some(place) => Err(Fault::StoppedContext(from + place)),
        None => Ok(()),
    }
}

// Whether both contexts are short enough and pass alone.
fn passing<S: Automaton>(automaton: &S, left: &[S::Kind], right: &[S::Kind]) -> Result<(), Fault>
    ensures { result ≡ passed (S.model automaton.now) left.now right.now (Ok tt) }
{
    short(left)?;
    short(right)?;
    alone(automaton, left, 0)?;
    alone(automaton, right, left.len())
}

// The join over words enough for the search, which are zero afterwards.
fn within<S: Automaton>(
    automaton: &S,
    left: &[S::Kind],
    right: &[S::Kind],
    text: &mut [S::Kind],
    words: &mut [u16],
) -> Result<Joined, Fault>
    requires { length words.old ≡ 4 * (S.model automaton.now).count }
    ensures answer { result ≡ joined_of S.Kind.Letter.alphabet (S.model automaton.now) left.now right.now (length text.old) }
    ensures text { text.new ≡ text_after result S.Kind.Letter.alphabet (S.model automaton.now) left.now right.now text.old }
    ensures work { words.new ≡ replicate (length words.old) 0 }
{
    let marks = Marks { words };
    passing(automaton, left, right)?;
    let most = left.len().min(right.len());
    let joined = append(automaton, left, right, most, text, left.len(), marks.words)?;
    text[0..left.len()].copy_from_slice(left);
    Ok(joined)
}

// The shortest passing string that begins with `left` and ends with `right`, the first in letter order among equals,
// written at the front of the text table. The work table needs four words for each state.
//
// `answer` has the refusals in their order and what an answer carries, `text` and `work` the tables afterwards, and
// `least` says that what overlap and filling give is the least string that joins, or that no string does.
pub fn join<S: Automaton>(
    automaton: &S,
    left: &[S::Kind],
    right: &[S::Kind],
    text: &mut [S::Kind],
    work: &mut [u16],
) -> Result<Joined, Fault>
    ensures answer { result ≡ answer_of S.Kind.Letter.alphabet (S.model automaton.now) left.now right.now (length text.old) (length work.old) }
    ensures text { text.new ≡ text_after result S.Kind.Letter.alphabet (S.model automaton.now) left.now right.now text.old }
    ensures work { work.new ≡ work_after (S.model automaton.now) work.old }
    ensures least { JoinIs S.Kind.Letter.alphabet (S.model automaton.now) left.now right.now (join_of S.Kind.Letter.alphabet (S.model automaton.now) left.now right.now) }
{
    // A helper for the next lines would give back a part of the table, and have to promise what is written through it.
    let needed = 4 * automaton.states() as usize;
    if work.len() < needed {
        return Err(Fault::ShortWork(needed));
    }
    within(automaton, left, right, text, &mut work[0..needed])
}
