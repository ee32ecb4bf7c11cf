// The row that brings a text to the right context.
ghost use Rattle.std.specs.Prelude.{◌≡◌, ℕ, ◌+◌, ◌*◌, ◌^◌, ◌<◌, ◌≤◌, length};
ghost use Rattle.joinlaw.specs.Words.{letters as all_letters};
ghost use Rattle.joinlaw.specs.Bridges.{bridge};
ghost use Rattle.joins.specs.Answers.{appended, appended_text};

use crate::answers::Joined;
use crate::search::Search;
use automata::Automaton;
use faults::Fault;

// Appends to a text that ends as `left` the row of the bridge to `right`, at the place `at`.
pub(crate) fn append<S: Automaton>(
    automaton: &S,
    left: &[S::Kind],
    right: &[S::Kind],
    most: usize,
    text: &mut [S::Kind],
    at: usize,
    words: &mut [u16],
) -> Result<Joined, Fault>
    requires most { (most ≤ length left.now) × (most ≤ length right.now) }
    requires work { length words.old ≡ 4 * (S.model automaton.now).count }
    requires small { at + length right.now < 2 ^ 62 }
    ensures answer { result ≡ appended (bridge S.Kind.Letter.alphabet (S.model automaton.now) (all_letters S.Kind.Letter.alphabet) left.now right.now most) right.now at (length text.old) }
    ensures text { text.new ≡ appended_text (bridge S.Kind.Letter.alphabet (S.model automaton.now) (all_letters S.Kind.Letter.alphabet) left.now right.now most) right.now at text.old }
{
    let Some(way) = Search::over(automaton, words).find(left, right, most) else {
        return Err(Fault::NoString(0));
    };
    let end = at + way.added(right.len());
    if end > text.len() {
        return Err(Fault::ShortText(end));
    }
    way.write(right, text, at, end);
    Ok(way.joined(end))
}
