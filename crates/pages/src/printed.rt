// What a call left on its page.

// How many bytes were written, and whether what was asked for was done. No `Result`, since both hold of a refusal too: its
// line was written. Each program's call makes its page, and this of it, in three lines of its own, which a call of a function
// with a closure would not make fewer.
#[derive(Clone, Copy)]
pub struct Printed {
    pub length: usize,
    pub done: bool,
}
