// How long a file may be, and how it writes a missing reading.

// The most bytes that a file may have.
pub const INPUT: usize = 60000;

// A gap in a trace; no kind has it as a letter.
pub const GAP: u8 = b'?';
