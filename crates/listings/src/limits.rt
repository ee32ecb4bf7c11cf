// The automaton that a file's settings make: one as it is, or with the run automaton of the limit beside it. It is an
// enum to call with either and no automaton itself, since a choice at every step made rewriting slower by a fifth.
ghost use Rattle.std.specs.Prelude.{◌≡◌, Ok};
ghost use Rattle.listings.specs.Listings.{limited};
ghost use Rattle.listings.specs.Limits.{model_of_result};

use automata::Automaton;
use faults::Fault;
use letters::Letter;
use pairs::Pair;
use runs::Run;

#[derive(Drop)]
pub enum Limited<P, L> {
    Alone(P),
    Both(Pair<P, Run<L>>),
}

impl<L: Letter, P: Automaton<Kind = L> + Drop> Limited<P, L> {
    // `automaton`, with the run automaton too where there is a limit.
    pub fn new(automaton: P, limit: Option<u16>) -> Result<Limited<P, L>, Fault>
        ensures { model_of_result P.Automaton.model L.Letter.alphabet result ≡ limited (P.Automaton.model automaton) L.Letter.alphabet limit Ok }
    {
        match limit {
            Some(r) => Ok(Limited::Both(Pair::new(automaton, Run::new(r)?)?)),
            None => Ok(Limited::Alone(automaton)),
        }
    }
}
