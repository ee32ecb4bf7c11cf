// What a call that appends letters answers.

// The length of the whole string, the letters in which the contexts overlap, and the letters filled in between them.
#[derive(Clone, Copy, Debug, PartialEq, Eq)]
pub struct Joined {
    pub length: usize,
    pub overlap: usize,
    pub filled: usize,
}
