// The two-letter kind of the worked examples: `a` and `b`.
ghost use Rattle.letters.specs.Two.{two_alphabet, two_numbered, two_printed, two_parsed};
ghost use Rattle.std.proofs.Common.{rules, refl};

use crate::kind::{Letter, Printable};

#[derive(Clone, Copy, Debug, PartialEq, Eq)]
pub enum Two {
    A,
    B,
}

impl Letter for Two {
    const LETTERS: u8 = 2;

    ghost LETTERS = { 2 };

    ghost alphabet = { two_alphabet };

    ghost numbered = { two_numbered };

    ghost sized = { refl };

    fn number(self) -> u8 {
        self as u8
    }

    fn from_number(n: u8) -> Option<Two> {
        match n {
            0 => Some(Two::A),
            1 => Some(Two::B),
            _ => None,
        }
    }
}

impl Printable for Two {
    ghost printed = { two_printed };

    ghost parsed = { two_parsed };

    ghost back = { Prim.search rules };

    ghost only = { Prim.search rules };

    ghost gap = { Prim.search rules };

    ghost newline = { Prim.search rules };

    fn byte(self) -> u8 {
        match self {
            Two::A => b'a',
            Two::B => b'b',
        }
    }

    fn from_byte(b: u8) -> Option<Two> {
        match b {
            b'a' => Some(Two::A),
            b'b' => Some(Two::B),
            _ => None,
        }
    }
}
