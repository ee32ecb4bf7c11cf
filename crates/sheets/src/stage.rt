// The stage of a sheet: fewer than k letters running or k, a window kept or none.
ghost use Rattle.std.specs.Prelude.{◌≡◌, ℕ};
ghost use Rattle.sheets.specs.Stages.{latest, shown_in, kept_size, held_in};

use crate::window::Window;

// A stage with a kept window holds the last one.
#[derive_where(Clone, Copy; L: Copy)]
pub enum Stage<L> {
    // Fewer than k letters run, and no window is kept.
    Opening,
    // k letters run, and no window is kept.
    Seeking,
    // Fewer than k letters run, after a gap.
    Resuming(Window<L>),
    // k letters run.
    Going(Window<L>),
}

impl<L: Copy> Stage<L> {
    // The last kept window.
    pub fn last(self) -> Option<Window<L>>
        ensures window { shown_in result ≡ latest self }
        ensures held { (k : ℕ) → held_in k result ≡ kept_size k self }
    {
        match self {
            Stage::Opening | Stage::Seeking => None,
            Stage::Resuming(window) | Stage::Going(window) => Some(window),
        }
    }
}
