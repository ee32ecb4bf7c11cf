// The run automaton: it stops a string where a letter stands more than `limit` times in a row.
#![tactic(auto)]

ghost use Rattle.std.specs.Prelude.{◌≡◌, ◌≤◌, Ok, Err, ⊤};
ghost use Rattle.faults.specs.Causes.{bad_limit};
ghost use Rattle.runlaw.specs.Runs.{run_model, OnlyShort};
ghost use Rattle.runlaw.proofs.Laws.{run-lawful};

use automata::Automaton;
use faults::Fault;
use letters::Letter;
use std::alloc::AllocError;
use std::marker::PhantomData;

// The run limit may be this many equal letters in a row at most.
pub const LONGEST: u16 = 8;

#[derive(Drop)]
#[derive_where(Copy)]
pub struct Run<L> {
    limit: u16,
    kind: PhantomData<L>,
    ghost least: { 1 ≤ limit },
    ghost most: { limit ≤ 8 },
}

// By hand: a derive is refused for a generic struct with a ghost field.
impl<L> Clone for Run<L> {
    ghost is_clone = { λ x y. y ≡ x };

    ghost is_infallible = { λ _. ⊤ };

    fn clone(&self) -> Result<Run<L>, AllocError> {
        Ok(*self)
    }
}

impl<L: Letter> Run<L> {
    // The automaton with the run limit `limit`, which is 1 to 8.
    pub fn new(limit: u16) -> Result<Run<L>, Fault>
        ensures made { elim result [ Ok s ↦ (s.limit ≡ limit) × (1 ≤ limit) × (limit ≤ 8) | Err f ↦ (f ≡ bad_limit limit) × (1 ≤ limit → limit ≤ 8 → ⊥) ] }
        ensures exactly { elim result [ Ok s ↦ OnlyShort (run_model L.Letter.alphabet s.limit) limit | Err f ↦ Unit {0} ] }
    {
        if limit < 1 || limit > LONGEST {
            return Err(Fault::BadLimit(limit as usize));
        }
        Ok(Run {
            limit,
            kind: PhantomData,
        })
    }

    // The run limit.
    pub fn limit(&self) -> u16
        ensures { result ≡ self.now.limit }
    {
        self.limit
    }
}

impl<L: Letter> Automaton for Run<L> {
    type Kind = L;

    ghost model = { λ s. run_model L.Letter.alphabet s.limit };

    ghost lawful = { λ s. run-lawful L.Letter.alphabet L.Letter.numbered s.limit s.least s.most };

    fn states(&self) -> u16 {
        1 + self.limit * L::count() as u16
    }

    fn first(&self) -> u16 {
        0
    }

    // State 0 is 'none yet'; number * limit + k says that the letter was the last, for the k-th time in a row.
    fn step(&self, state: u16, letter: L) -> Option<u16> {
        let before = letter.number() as u16 * self.limit;
        let longest = before + self.limit;
        if state > self.limit * L::count() as u16 {
            None
        } else if state <= before || state > longest {
            Some(before + 1)
        } else if state < longest {
            Some(state + 1)
        } else {
            None
        }
    }

    fn memory(&self) -> u16 {
        self.limit
    }
}
