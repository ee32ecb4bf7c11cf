// Each kind's first and last letter, and the bytes around its own.
use crate::kinds::{One, Wide};
use letters::{Letter, Printable, Seepage, Trend, Two};
use std::process::Abort;
use std::test::Fail;

// The letter of each number has that number, and the count has none.
fn numbered<L: Letter>(rt: &impl Abort, count: u8) -> Result<(), Fail> {
    assert_eq!(rt; L::count(), count);
    assert_eq!(rt; L::LETTERS, count);
    for n in 0..count {
        let letter = L::from_number(n).ok_or("no letter")?;
        assert_eq!(rt; letter.number(), n);
    }
    assert!(rt; L::from_number(count).is_none());
    assert!(rt; L::from_number(255).is_none());
    Ok(())
}

#[test]
fn every_kind_is_numbered(rt: HostRuntime) -> Result<(), Fail> {
    numbered::<Two>(&rt, 2)?;
    numbered::<Trend>(&rt, 6)?;
    numbered::<Seepage>(&rt, 8)?;
    numbered::<One>(&rt, 1)?;
    numbered::<Wide>(&rt, 32)
}

// Exactly the bytes of `text` read as letters, in their order of number, and each is written back.
fn printed<L: Printable>(rt: &impl Abort, text: &[u8]) -> Result<(), Fail> {
    for b in 0..=255u8 {
        let letter = L::from_byte(b);
        assert_eq!(rt; letter.is_some(), text.contains(&b));
        if let Some(x) = letter {
            assert_eq!(rt; x.byte(), b);
        }
    }
    for (i, b) in text.iter().enumerate() {
        let letter = L::from_byte(*b).ok_or("no letter")?;
        assert_eq!(rt; letter.number() as usize, i);
    }
    assert!(rt; L::from_byte(b'?').is_none());
    assert!(rt; L::from_byte(b'\n').is_none());
    Ok(())
}

#[test]
fn every_printable_kind_reads_back(rt: HostRuntime) -> Result<(), Fail> {
    printed::<Two>(&rt, b"ab")?;
    printed::<Trend>(&rt, b"=+-*/S")?;
    printed::<Seepage>(&rt, b"aAbBcCdD")
}
