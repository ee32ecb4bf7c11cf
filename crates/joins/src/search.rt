// The search forward from a state, by a queue, for the first state from which the right context can be walked.
ghost use Rattle.std.specs.Prelude.{◌≡◌, ℕ, ◌+◌, ◌*◌, ◌<◌, ◌≤◌, length, Some, slice_index};
ghost use Rattle.joinlaw.specs.Words.{letters as all_letters};
ghost use Rattle.joinlaw.specs.Bridges.{bridge, serves};
ghost use Rattle.joins.specs.Queue.{by, step_by, Paused, Explored};
ghost use Rattle.joins.specs.Ways.{WayIs};

use crate::overlaps::overlap;
use crate::trails::Trail;
use crate::ways::Way;
use automata::{Automaton, walk};
use letters::Letter;

// A search of an automaton, in lent words: no heap, so four tables with a word for each state. By state, whether it is
// in the queue; by place in the queue, the state, the place of the state that led to it, and the number of the letter
// between them.
#[derive(Drop)]
pub struct Search<'a, 'w, S: Automaton> {
    automaton: &'a S,
    seen: &'w mut [u16],
    queue: &'w mut [u16],
    parents: &'w mut [u16],
    letters: &'w mut [u16],
    ghost long_seen: { length seen.now ≡ (S.model automaton.now).count },
    ghost long_queue: { length queue.now ≡ (S.model automaton.now).count },
    ghost long_parents: { length parents.now ≡ (S.model automaton.now).count },
    ghost long_letters: { length letters.now ≡ (S.model automaton.now).count },
}

impl<'a, 'w, S: Automaton> Search<'a, 'w, S> {
    // Over the words lent for it, four for each state: asked for here and by whoever passes them on, since a sheet keeps its
    // automaton and is lent words by each call, so that nothing else holds the two together.
    pub fn over(automaton: &'a S, words: &'w mut [u16]) -> Search<'a, 'w, S>
        requires { length words.old ≡ 4 * (S.model automaton.now).count }
        ensures { result.automaton.now ≡ automaton.now }
    {
        let n = automaton.states() as usize;
        let (seen, rest) = words.split_at_mut(n);
        let (queue, rest) = rest.split_at_mut(n);
        let (parents, letters) = rest.split_at_mut(n);
        Search::apart(automaton, seen, queue, parents, letters)
    }

    // Over four tables that are lent apart, with a word for each state.
    pub fn apart(
        automaton: &'a S,
        seen: &'w mut [u16],
        queue: &'w mut [u16],
        parents: &'w mut [u16],
        letters: &'w mut [u16],
    ) -> Search<'a, 'w, S>
        requires { (length seen.old ≡ (S.model automaton.now).count) × (length queue.old ≡ (S.model automaton.now).count) × (length parents.old ≡ (S.model automaton.now).count) × (length letters.old ≡ (S.model automaton.now).count) }
        ensures { result.automaton.now ≡ automaton.now }
    {
        Search {
            automaton,
            seen,
            queue,
            parents,
            letters,
        }
    }

    // The next state by the letter with a number.
    fn step_by(&self, state: u16, number: u8) -> Option<u16>
        ensures { result ≡ step_by S.Kind.Letter.alphabet.letter (S.model self.now.automaton.now) state number }
    {
        self.automaton.step(state, S::Kind::from_number(number)?)
    }

    // Queues the states that the one at `head` leads to and that have no place yet, in letter order; the new end of the queue.
    // The loop is over numbers, since it is a letter's number that the tables keep.
    fn expand(&mut self, head: u16, tail: u16) -> u16
        requires here { head < tail }
        requires paused { Paused (step_by S.Kind.Letter.alphabet.letter (S.model self.old.automaton.now)) (slice_index self.old.queue.now 0) (S.model self.old.automaton.now).count head tail self.old.seen.now (by self.old.queue.now) (by self.old.parents.now) (by self.old.letters.now) }
        ensures paused { Paused (step_by S.Kind.Letter.alphabet.letter (S.model self.old.automaton.now)) (slice_index self.old.queue.now 0) (S.model self.old.automaton.now).count (head + 1) result self.new.seen.now (by self.new.queue.now) (by self.new.parents.now) (by self.new.letters.now) }
        ensures kept { (i : ℕ) → i < tail → slice_index self.new.queue.now i ≡ slice_index self.old.queue.now i }
        ensures same { self.new.automaton.now ≡ self.old.automaton.now }
    {
        let state = self.queue[head as usize];
        let mut end = tail;
        for number in 0..S::Kind::count() {
            if let Some(to) = self.step_by(state, number) {
                if self.seen[to as usize] == 0 {
                    self.seen[to as usize] = 1;
                    self.queue[end as usize] = to;
                    self.parents[end as usize] = head;
                    self.letters[end as usize] = number as u16;
                    end += 1;
                }
            }
        }
        end
    }

    // The place in the queue of the first state from which `right` can be walked. The loop is a `while` since the queue
    // grows as it is worked off.
    fn explore(&mut self, start: u16, right: &[S::Kind]) -> Option<u16>
        requires { start < (S.model self.old.automaton.now).count }
        ensures explored { Explored (step_by S.Kind.Letter.alphabet.letter (S.model self.old.automaton.now)) (serves (S.model self.old.automaton.now) right.now) start (by self.new.queue.now) (by self.new.parents.now) (by self.new.letters.now) result }
        ensures within { (i : ℕ) → result ≡ Some i → i < (S.model self.old.automaton.now).count }
        ensures same { self.new.automaton.now ≡ self.old.automaton.now }
    {
        self.seen.fill(0);
        self.seen[start as usize] = 1;
        self.queue[0] = start;
        let mut head = 0;
        let mut tail = 1;
        while head < tail {
            if walk(self.automaton, self.queue[head as usize], right).is_some() {
                return Some(head);
            }
            tail = self.expand(head, tail);
            head += 1;
        }
        None
    }

    // The bridge from a text that ends as `left` to `right`: the overlap, or else a filling that is searched for. The three
    // stand side by side, since a struct of them would be made for this call alone.
    pub fn find(mut self, left: &[S::Kind], right: &[S::Kind], most: usize) -> Option<Way<'w>>
        requires { (most ≤ length left.now) × (most ≤ length right.now) }
        ensures { WayIs S.Kind.Letter.alphabet (S.model self.entry.automaton.now).count (length right.now) result (bridge S.Kind.Letter.alphabet (S.model self.entry.automaton.now) (all_letters S.Kind.Letter.alphabet) left.now right.now most) }
    {
        let state = walk(self.automaton, self.automaton.first(), left)?;
        if let Some(shared) = overlap(self.automaton, state, left, right, most) {
            return Some(Way::Overlap(shared));
        }
        let place = self.explore(state, right)?;
        let parents = self.parents;
        let letters = self.letters;
        Some(Way::Filling(Trail::to(parents, letters, place)))
    }
}
