// An automaton of any count of states that stops nothing.
ghost use Rattle.std.specs.Prelude.{◌≡◌, ◌≤◌, min, max};
ghost use Rattle.base_tests.specs.Kinds.{idle_model, idle_lawful};

use automata::Automaton;
use letters::Letter;
use std::marker::PhantomData;

#[derive(Drop)]
pub struct Idle<L> {
    states: u16,
    kind: PhantomData<L>,
    ghost some: { 1 ≤ states },
    ghost few: { states ≤ 4096 },
}

impl<L> Idle<L> {
    // With 1 to 4,096 states; a number outside that range is brought to its nearer end.
    pub fn new(states: u16) -> Idle<L>
        ensures { result.states ≡ min (max states 1) 4096 }
    {
        Idle {
            states: states.max(1).min(4096),
            kind: PhantomData,
        }
    }
}

impl<L: Letter> Automaton for Idle<L> {
    type Kind = L;

    ghost model = { λ s. idle_model s.states };

    ghost lawful = { λ s. idle_lawful s.states s.some s.few };

    fn states(&self) -> u16 {
        self.states
    }

    fn first(&self) -> u16 {
        0
    }

    fn step(&self, state: u16, _letter: L) -> Option<u16> {
        (state < self.states).then_some(state)
    }

    fn memory(&self) -> u16 {
        0
    }
}
