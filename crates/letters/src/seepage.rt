// Seepage: a flow class, and whether the water is clear or cloudy.
ghost use Rattle.letters.specs.Seepages.{seepage_alphabet, seepage_numbered, seepage_printed, seepage_parsed};
ghost use Rattle.std.proofs.Common.{rules, refl};

use crate::kind::{Letter, Printable};

// The flow class, 0 to 3.
#[derive(Clone, Copy, Debug, PartialEq, Eq)]
pub enum Flow {
    Zero,
    One,
    Two,
    Three,
}

#[derive(Clone, Copy, Debug, PartialEq, Eq)]
pub struct Seepage {
    pub flow: Flow,
    pub cloudy: bool,
}

impl Letter for Seepage {
    const LETTERS: u8 = 8;

    ghost LETTERS = { 8 };

    ghost alphabet = { seepage_alphabet };

    ghost numbered = { seepage_numbered };

    ghost sized = { refl };

    fn number(self) -> u8 {
        2 * self.flow as u8 + self.cloudy as u8
    }

    fn from_number(n: u8) -> Option<Seepage> {
        let flow = match n / 2 {
            0 => Flow::Zero,
            1 => Flow::One,
            2 => Flow::Two,
            3 => Flow::Three,
            _ => return None,
        };
        Some(Seepage {
            flow,
            cloudy: n % 2 == 1,
        })
    }
}

impl Printable for Seepage {
    ghost printed = { seepage_printed };

    ghost parsed = { seepage_parsed };

    ghost back = { Prim.search rules };

    ghost only = { Prim.search rules };

    ghost gap = { Prim.search rules };

    ghost newline = { Prim.search rules };

    fn byte(self) -> u8 {
        match (self.flow, self.cloudy) {
            (Flow::Zero, false) => b'a',
            (Flow::One, false) => b'b',
            (Flow::Two, false) => b'c',
            (Flow::Three, false) => b'd',
            (Flow::Zero, true) => b'A',
            (Flow::One, true) => b'B',
            (Flow::Two, true) => b'C',
            (Flow::Three, true) => b'D',
        }
    }

    fn from_byte(b: u8) -> Option<Seepage> {
        let (flow, cloudy) = match b {
            b'a' => (Flow::Zero, false),
            b'b' => (Flow::One, false),
            b'c' => (Flow::Two, false),
            b'd' => (Flow::Three, false),
            b'A' => (Flow::Zero, true),
            b'B' => (Flow::One, true),
            b'C' => (Flow::Two, true),
            b'D' => (Flow::Three, true),
            _ => return None,
        };
        Some(Seepage { flow, cloudy })
    }
}
