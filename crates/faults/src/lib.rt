// Faults: why a call was refused. A fault keeps its number, layer and place from the call that found it to the
// program's refusal line.
#![tactic(auto)]

ghost use Rattle.std.specs.Prelude.{◌≡◌};
ghost use Rattle.faults.specs.Causes.{number_of, layer_of, place_of, layer_byte};

// The part of the work that refuses.
#[derive(Clone, Copy, Debug, PartialEq, Eq)]
pub enum Layer {
    Letter,
    List,
    Automaton,
    Join,
    Sheet,
    File,
}

// Why a call was refused, and where: what a case holds tells its place, where that is not fixed.
#[derive(Clone, Copy, Debug, PartialEq, Eq)]
pub enum Fault {
    // A byte that is no letter, nor `?` in a trace; its place in the pattern, text or trace.
    NoLetter(usize),
    // A pattern of 0 or over 12 letters; its length.
    BadLength(usize),
    // A 65th pattern, or a 513th state; the patterns held.
    FullList(usize),
    // The list's tables are too short.
    ShortTables,
    // The work table is too short; the words needed.
    ShortWork(usize),
    // A run limit that is not 1 to 8.
    BadLimit(usize),
    // A pair of over 4,096 states; the product of the two counts.
    LargePair(usize),
    // A window length that is not 2 to 12.
    BadWindow(usize),
    // An automaton whose memory is above the window length; the memory.
    LongMemory(usize),
    // A context that does not pass alone; where it is stopped, in the right one counted on from the end of the left.
    StoppedContext(usize),
    // No such string exists; 0 in a join, in a sheet the letters and gaps taken.
    NoString(usize),
    // The answer, in a sheet the whole new text, is longer than the text table; its length.
    ShortText(usize),
    // A context of over 50,000 letters; its length.
    LongContext(usize),
    // 50,000 letters and gaps are taken.
    FullSheet,
    // A file that breaks the line rules.
    BrokenFile,
}

impl Fault {
    // The number of the cause, 1 to 11.
    pub fn number(self) -> u8
        ensures { result ≡ number_of self }
    {
        match self {
            Fault::NoLetter(_) => 1,
            Fault::BadLength(_) => 2,
            Fault::FullList(_) => 3,
            Fault::ShortTables | Fault::ShortWork(_) => 4,
            Fault::BadLimit(_) | Fault::LargePair(_) | Fault::BadWindow(_) => 5,
            Fault::LongMemory(_) => 6,
            Fault::StoppedContext(_) => 7,
            Fault::NoString(_) => 8,
            Fault::ShortText(_) => 9,
            Fault::LongContext(_) | Fault::FullSheet => 10,
            Fault::BrokenFile => 11,
        }
    }

    // The part of the work that refuses.
    pub fn layer(self) -> Layer
        ensures { result ≡ layer_of self }
    {
        match self {
            Fault::NoLetter(_) => Layer::Letter,
            Fault::BadLength(_) | Fault::FullList(_) | Fault::ShortTables => Layer::List,
            Fault::BadLimit(_) | Fault::LargePair(_) => Layer::Automaton,
            Fault::ShortWork(_)
            | Fault::StoppedContext(_)
            | Fault::NoString(_)
            | Fault::ShortText(_)
            | Fault::LongContext(_) => Layer::Join,
            Fault::BadWindow(_) | Fault::LongMemory(_) | Fault::FullSheet => Layer::Sheet,
            Fault::BrokenFile => Layer::File,
        }
    }

    // Where it was found, or the length or count that is at fault.
    pub fn place(self) -> usize
        ensures { result ≡ place_of self }
    {
        match self {
            Fault::NoLetter(place) | Fault::StoppedContext(place) => place,
            Fault::BadLength(length)
            | Fault::BadWindow(length)
            | Fault::ShortText(length)
            | Fault::LongContext(length) => length,
            Fault::FullList(held) => held,
            Fault::ShortTables => 512,
            Fault::ShortWork(needed) => needed,
            Fault::BadLimit(limit) => limit,
            Fault::LargePair(product) => product,
            Fault::LongMemory(memory) => memory,
            Fault::NoString(taken) => taken,
            Fault::FullSheet => 50000,
            Fault::BrokenFile => 0,
        }
    }

    // The letter that stands for the layer in a refusal line.
    pub fn layer_byte(self) -> u8
        ensures { result ≡ layer_byte self }
    {
        match self.layer() {
            Layer::Letter => b'L',
            Layer::List => b'P',
            Layer::Automaton => b'S',
            Layer::Join => b'J',
            Layer::Sheet => b'T',
            Layer::File => b'F',
        }
    }
}
