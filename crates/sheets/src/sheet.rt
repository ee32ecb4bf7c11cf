// What a sheet holds.
ghost use Rattle.std.specs.Prelude.{◌≡◌, ℕ, ◌+◌, ◌*◌, ◌<◌, ◌≤◌, true, false};
ghost use Rattle.sheets.specs.Stages.{full, kept_size};

use crate::stage::Stage;
use crate::window::Window;
use automata::Automaton;
use sheetlaw::Counts;

// A sheet on an automaton, which it keeps, with windows of `k` letters. It changes by its calls only.
#[derive(Drop)]
pub struct Sheet<S: Automaton> {
    pub(crate) automaton: S,
    pub(crate) k: usize,
    pub(crate) stage: Stage<S::Kind>,
    // The last k letters taken since the opening or the last gap, or all if fewer.
    pub(crate) running: Window<S::Kind>,
    // The letters and gaps taken.
    pub(crate) taken: usize,
    pub(crate) counts: Counts,
    ghost some: { 2 ≤ k },
    ghost most: { k ≤ 12 },
    ghost few: { taken ≤ 50000 },
    ghost within: { running.held ≤ k },
    ghost all: { full stage ≡ true → running.held ≡ k },
    ghost fewer: { full stage ≡ false → running.held < k },
    ghost kept: { kept_size k stage ≡ k },
    ghost counted: { counts.letters + counts.kept + counts.skipped ≤ 3 * taken },
    ghost written: { counts.text + counts.filled ≤ 9000 * taken },
}
