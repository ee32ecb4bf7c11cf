// Kinds of 1 and of 32 letters: both ends of the range.
ghost use Rattle.std.proofs.Common.{refl};
ghost use Rattle.base_tests.specs.Kinds.{one_alphabet, one_numbered, wide_alphabet, wide_numbered};

use letters::Letter;

#[derive(Clone, Copy, Debug, PartialEq, Eq)]
pub enum One {
    Only,
}

impl Letter for One {
    const LETTERS: u8 = 1;

    ghost LETTERS = { 1 };

    ghost alphabet = { one_alphabet };

    ghost numbered = { one_numbered };

    ghost sized = { refl };

    fn number(self) -> u8 {
        0
    }

    fn from_number(n: u8) -> Option<One> {
        (n == 0).then_some(One::Only)
    }
}

// Five flags, the first of the highest value.
#[derive(Clone, Copy, Debug, PartialEq, Eq)]
pub struct Wide {
    pub a: bool,
    pub b: bool,
    pub c: bool,
    pub d: bool,
    pub e: bool,
}

impl Letter for Wide {
    const LETTERS: u8 = 32;

    ghost LETTERS = { 32 };

    ghost alphabet = { wide_alphabet };

    ghost numbered = { wide_numbered };

    ghost sized = { refl };

    fn number(self) -> u8 {
        16 * self.a as u8
            + (8 * self.b as u8 + (4 * self.c as u8 + (2 * self.d as u8 + self.e as u8)))
    }

    fn from_number(n: u8) -> Option<Wide> {
        if n < 32 {
            Some(Wide {
                a: n / 16 == 1,
                b: n / 8 % 2 == 1,
                c: n / 4 % 2 == 1,
                d: n / 2 % 2 == 1,
                e: n % 2 == 1,
            })
        } else {
            None
        }
    }
}
