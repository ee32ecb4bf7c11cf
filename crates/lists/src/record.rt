// The record that a list keeps for each of its states.
ghost use Rattle.std.specs.Prelude.{◌≡◌, ◌==◌, ◌&&◌};

// A state is a proper prefix of a pattern. The records lie in the order in which the prefixes first came, the empty one first.
#[derive(Clone, Copy)]
pub struct Record {
    // the state of the prefix less its last letter, and that letter's number; states are numbers of records and no `Box`,
    // since nothing here may allocate
    pub parent: u16,
    pub letter: u8,
    // how many letters the prefix has
    pub length: u8,
    // the failure link: the state of its longest proper suffix that is one
    pub link: u16,
    // the end mark, a bit for each letter: a pattern ends where the letter follows the prefix
    pub ends: u32,
}

impl Record {
    // What a table of records may hold before it is lent, and the record of the empty prefix.
    pub const BLANK: Record = Record {
        parent: 0,
        letter: 0,
        length: 0,
        link: 0,
        ends: 0,
    };

    // Whether it hangs under the state `under` by the letter `a`.
    pub(crate) fn hangs(&self, under: usize, a: u8) -> bool
        ensures { result ≡ (self.now.parent == under && self.now.letter == a) }
    {
        self.parent as usize == under && self.letter == a
    }
}
