// What a letter will do that is not refused.
ghost use Rattle.std.specs.Prelude.{◌≡◌, ℕ, ◌+◌, ◌^◌, ◌<◌, ◌≤◌};
ghost use Rattle.sheets.specs.Plans.{counted, Few};

use joins::Way;
use sheetlaw::Counts;

#[derive(Clone, Copy)]
pub enum Plan<'w> {
    // Fewer than k letters run then.
    Wait,
    // The k letters do not pass alone.
    Skip,
    // The window is kept: the way to it, and the letters appended for it.
    Keep { way: Way<'w>, appended: usize },
}

impl Plan<'_> {
    // The counts after it.
    pub fn count(self, k: usize, counts: Counts) -> Counts
        requires few { Few self }
        requires small { (counts.letters < 2 ^ 62) × ((counts.kept < 2 ^ 62) × ((counts.skipped < 2 ^ 62) × ((counts.text < 2 ^ 62) × (counts.filled < 2 ^ 62)))) }
        ensures { result ≡ counted k counts self.entry }
    {
        let letters = counts.letters + 1;
        match self {
            Plan::Wait => Counts { letters, ..counts },
            Plan::Skip => Counts {
                letters,
                skipped: counts.skipped + 1,
                ..counts
            },
            Plan::Keep { way: _, appended } => Counts {
                letters,
                kept: counts.kept + 1,
                skipped: counts.skipped,
                text: counts.text + appended,
                filled: counts.filled + appended.saturating_sub(k),
            },
        }
    }
}
