// One piezometer: the trend of its level over an interval, or a scale mark.
ghost use Rattle.letters.specs.Trends.{trend_alphabet, trend_numbered, trend_printed, trend_parsed};
ghost use Rattle.std.proofs.Common.{rules, refl};

use crate::kind::{Letter, Printable};

// A scale mark says that the readings after it are on the other scale.
#[derive(Clone, Copy, Debug, PartialEq, Eq)]
pub enum Trend {
    Steady,
    Rise,
    Fall,
    FastRise,
    FastFall,
    ScaleMark,
}

impl Letter for Trend {
    const LETTERS: u8 = 6;

    ghost LETTERS = { 6 };

    ghost alphabet = { trend_alphabet };

    ghost numbered = { trend_numbered };

    ghost sized = { refl };

    fn number(self) -> u8 {
        self as u8
    }

    fn from_number(n: u8) -> Option<Trend> {
        match n {
            0 => Some(Trend::Steady),
            1 => Some(Trend::Rise),
            2 => Some(Trend::Fall),
            3 => Some(Trend::FastRise),
            4 => Some(Trend::FastFall),
            5 => Some(Trend::ScaleMark),
            _ => None,
        }
    }
}

impl Printable for Trend {
    ghost printed = { trend_printed };

    ghost parsed = { trend_parsed };

    ghost back = { Prim.search rules };

    ghost only = { Prim.search rules };

    ghost gap = { Prim.search rules };

    ghost newline = { Prim.search rules };

    fn byte(self) -> u8 {
        let printed = match self {
            Trend::Steady => '=',
            Trend::Rise => '+',
            Trend::Fall => '-',
            Trend::FastRise => '*',
            Trend::FastFall => '/',
            Trend::ScaleMark => 'S',
        };
        printed as u8
    }

    fn from_byte(b: u8) -> Option<Trend> {
        match b as char {
            '=' => Some(Trend::Steady),
            '+' => Some(Trend::Rise),
            '-' => Some(Trend::Fall),
            '*' => Some(Trend::FastRise),
            '/' => Some(Trend::FastFall),
            'S' => Some(Trend::ScaleMark),
            _ => None,
        }
    }
}
