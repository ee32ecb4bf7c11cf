// Automata: numbered states and the steps between them, over a kind of letters; the walk and the check over any of them.
#![tactic(auto)]

ghost use Rattle.std.specs.Prelude.{◌≡◌, ℕ, Option};
ghost use Rattle.models.specs.Automaton.{Next, Model, Lawful, walk as walk_of, stops, stopped};

use letters::Letter;

// An automaton over letters of its kind. `model` is its meaning, and `lawful` what each implementation owes of it.
pub trait Automaton {
    type Kind: Letter;

    ghost model: { Self → Model Self.Kind };

    ghost lawful: { (s : Self) → Lawful (model s) };

    // The count of states, 1 to 4,096.
    fn states(&self) -> u16
        ensures { result ≡ (model self.now).count };

    // The first state.
    fn first(&self) -> u16
        ensures { result ≡ (model self.now).start };

    // The next state, or None where the letter is stopped.
    fn step(&self, state: u16, letter: Self::Kind) -> Option<u16>
        ensures { result ≡ (model self.now).next state letter };

    // How many last letters of a passing string tell its state.
    fn memory(&self) -> u16
        ensures { result ≡ (model self.now).memory };
}

// The state after `text` from the state `from`, or None where the walk is stopped.
pub fn walk<S: Automaton>(automaton: &S, from: u16, text: &[S::Kind]) -> Option<u16>
    ensures { result ≡ walk_of (S.model automaton.now).next from text.now }
{
    let mut state = from;
    for letter in text {
        state = automaton.step(state, *letter)?;
    }
    Some(state)
}

// The place of the item at which a walk by `step` from the state `from` is stopped, or None.
pub fn stop_place<T: Copy, F: Fn(u16, T) -> Option<u16>>(
    step: F,
    from: u16,
    items: &[T],
) -> Option<usize>
    requires { F.IsAlwaysCallable step }
    ensures { (next : Next T) → ((q : ℕ) (x : T) (o : Option ℕ) → F.post step q x o → o ≡ next q x) → result ≡ stops next from items.now }
{
    let mut at = from;
    for (i, item) in items.iter().enumerate() {
        match step(at, *item) {
            Some(after) => at = after,
            None => return Some(i),
        }
    }
    None
}

// The place of the letter at which `text` is stopped, or None where it passes.
pub fn check<S: Automaton>(automaton: &S, text: &[S::Kind]) -> Option<usize>
    ensures { result ≡ stopped (S.model automaton.now) text.now }
{
    stop_place(
        |state, letter| automaton.step(state, letter),
        automaton.first(),
        text,
    )
}
