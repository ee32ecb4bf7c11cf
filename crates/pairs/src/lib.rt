// A pair of automata over one kind of letters: it lets pass exactly what both let pass.
#![tactic(auto)]

ghost use Rattle.std.specs.Prelude.{◌≡◌, ◌*◌, ◌<◌, ◌≤◌, Ok, Err};
ghost use Rattle.faults.specs.Causes.{large_pair};
ghost use Rattle.pairlaw.specs.Pairs.{pair_model, OnlyBoth};
ghost use Rattle.pairlaw.proofs.Products.{pair_lawful};

use automata::Automaton;
use faults::Fault;
use letters::Letter;

// An automaton has at most this many states.
pub const MOST_STATES: u32 = 4096;

#[derive(Clone, Copy, Drop)]
pub struct Pair<P, Q> {
    left: P,
    right: Q,
}

impl<P: Automaton + Drop, Q: Automaton<Kind = P::Kind> + Drop> Pair<P, Q> {
    // The two side by side, where the product of their counts of states is at most 4,096.
    pub fn new(left: P, right: Q) -> Result<Pair<P, Q>, Fault>
        ensures made { elim result [ Ok s ↦ (s.left ≡ left) × (s.right ≡ right) × ((P.Automaton.model left).count * (Q.Automaton.model right).count ≤ 4096) | Err f ↦ (f ≡ large_pair ((P.Automaton.model left).count * (Q.Automaton.model right).count)) × (4096 < (P.Automaton.model left).count * (Q.Automaton.model right).count) ] }
        ensures exactly { elim result [ Ok s ↦ OnlyBoth (pair_model (P.Automaton.model s.left) (Q.Automaton.model s.right)) (P.Automaton.model left) (Q.Automaton.model right) | Err f ↦ Unit {0} ] }
    {
        let product = left.states() as u32 * right.states() as u32;
        if product > MOST_STATES {
            return Err(Fault::LargePair(product as usize));
        }
        Ok(Pair { left, right })
    }
}

impl<P: Automaton, Q: Automaton<Kind = P::Kind>> Automaton for Pair<P, Q> {
    type Kind = P::Kind;

    ghost model = { λ s. pair_model (P.Automaton.model s.left) (Q.Automaton.model s.right) };

    ghost lawful = { λ s. pair_lawful (P.Automaton.model s.left) (Q.Automaton.model s.right) (P.Automaton.lawful s.left) (Q.Automaton.lawful s.right) };

    fn states(&self) -> u16 {
        let product = self.left.states() as u32 * self.right.states() as u32;
        if product <= MOST_STATES {
            product as u16
        } else {
            1
        }
    }

    fn first(&self) -> u16 {
        let columns = self.right.states() as u32;
        if self.left.states() as u32 * columns <= MOST_STATES {
            (self.left.first() as u32 * columns) as u16 + self.right.first()
        } else {
            0
        }
    }

    // A state is a row, the left one's state, and a column, the right one's.
    fn step(&self, state: u16, letter: P::Kind) -> Option<u16> {
        let columns = self.right.states();
        let product = self.left.states() as u32 * columns as u32;
        if product > MOST_STATES || state as u32 >= product {
            return None;
        }
        let row = self.left.step(state / columns, letter)?;
        let column = self.right.step(state % columns, letter)?;
        Some(row * columns + column)
    }

    fn memory(&self) -> u16 {
        self.left.memory().max(self.right.memory())
    }
}
