// Texts: letters read from bytes, and the check of a text that is given as bytes.
#![tactic(auto)]

ghost use Rattle.std.specs.Prelude.{◌≡◌, not, is_some};
ghost use Rattle.texts.specs.Texts.{reading, stray as stray_in, checked, byte_next};

use automata::{Automaton, stop_place};
use faults::Fault;
use letters::Printable;

// The place of the first byte that reads as no letter of the kind, or None.
pub fn stray<L: Printable>(bytes: &[u8]) -> Option<usize>
    ensures { result ≡ stray_in (reading L.Letter.alphabet L.Printable.parsed) bytes.now }
{
    bytes.iter().position(|b| L::from_byte(*b).is_none())
}

// The step with the letter that a byte reads as; a byte that is no letter stops.
fn step_byte<S: Automaton>(automaton: &S, state: u16, byte: u8) -> Option<u16>
where
    S::Kind: Printable,
    ensures { result ≡ byte_next (S.model automaton.now) (reading S.Kind.Letter.alphabet S.Kind.Printable.parsed) state byte }
{
    automaton.step(state, S::Kind::from_byte(byte)?)
}

// The place of the letter at which a text is stopped, or None where it passes. The text is first read for bytes that
// are no letter.
pub fn check_bytes<S: Automaton>(automaton: &S, bytes: &[u8]) -> Result<Option<usize>, Fault>
where
    S::Kind: Printable,
    ensures { result ≡ checked (S.model automaton.now) (reading S.Kind.Letter.alphabet S.Kind.Printable.parsed) bytes.now }
{
    match stray::<S::Kind>(bytes) {
        Some(place) => Err(Fault::NoLetter(place)),
        None => Ok(stop_place(
            |state, byte| step_byte(automaton, state, byte),
            automaton.first(),
            bytes,
        )),
    }
}
