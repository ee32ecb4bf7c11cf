// Automata for the cases: one with two states, in which a letter is stopped right after another, and one that stops every
// letter.
ghost use Rattle.join_cases.specs.After.{after_model, after_lawful};
ghost use Rattle.join_cases.specs.Shut.{shut_model, shut_lawful};

use automata::Automaton;
use letters::{Letter, Trend, Two};

// `second` is stopped right after `first`. State 1 is after `first`.
pub struct After<L> {
    first: L,
    second: L,
}

// `b` is stopped right after `a`.
pub const NO_AB: After<Two> = After {
    first: Two::A,
    second: Two::B,
};

// A fall is stopped right after a rise.
pub const CALM: After<Trend> = After {
    first: Trend::Rise,
    second: Trend::Fall,
};

impl<L: Letter> Automaton for After<L> {
    type Kind = L;

    ghost model = { λ s. after_model L.Letter.alphabet.number (L.Letter.alphabet.number s.first) (L.Letter.alphabet.number s.second) };

    ghost lawful = { λ s. after_lawful L.Letter.alphabet.number (L.Letter.alphabet.number s.first) (L.Letter.alphabet.number s.second) };

    fn states(&self) -> u16 {
        2
    }

    fn first(&self) -> u16 {
        0
    }

    fn step(&self, state: u16, letter: L) -> Option<u16> {
        let number = letter.number();
        let to = (number == self.first.number()) as u16;
        match state {
            0 => Some(to),
            1 if number != self.second.number() => Some(to),
            _ => None,
        }
    }

    fn memory(&self) -> u16 {
        1
    }
}

// Every letter is stopped.
pub struct Shut;

impl Automaton for Shut {
    type Kind = Two;

    ghost model = { λ s. shut_model };

    ghost lawful = { λ s. shut_lawful };

    fn states(&self) -> u16 {
        1
    }

    fn first(&self) -> u16 {
        0
    }

    fn step(&self, _state: u16, _letter: Two) -> Option<u16> {
        None
    }

    fn memory(&self) -> u16 {
        0
    }
}
