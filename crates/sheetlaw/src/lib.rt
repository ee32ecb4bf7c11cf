// What a sheet is given and answers, as plain types; its law over every list of calls stands in specs/Law.antt.
#![tactic(auto)]

// What a sheet is given: a letter of the trace, or a gap where the reading is missing. No `Option`, since a gap is a call of
// its own and not the want of one.
#[derive(Clone, Copy)]
pub enum Event<L> {
    Letter(L),
    Gap,
}

// What a letter did that was not refused.
#[derive(Clone, Copy, Debug, PartialEq, Eq)]
pub enum Answer {
    // Fewer letters than a window run.
    Pending,
    // The window does not pass alone.
    Skipped,
    // The window is in the text now: the letters appended for it, and how many of these were filled in.
    Kept { appended: usize, filled: usize },
}

// What a sheet has counted by the time it is closed.
#[derive(Clone, Copy, Debug, PartialEq, Eq)]
pub struct Counts {
    pub letters: usize,
    pub kept: usize,
    pub skipped: usize,
    pub text: usize,
    pub filled: usize,
}
