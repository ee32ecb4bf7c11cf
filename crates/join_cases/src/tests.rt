// Joins, their refusals, and both tables afterwards.
use crate::automatons::*;
use faults::Fault;
use joins::{Joined, Search, Trail, Way, join};
use letters::{Trend, Two};
use std::test::Fail;

// Two contexts overlap by one letter; beyond the string and the words of the search both tables are as they were.
#[test]
fn overlaps_by_one(rt: HostRuntime) -> Result<(), Fail> {
    let mut text = [Two::B; 4];
    let mut work = [65535u16; 10];
    let r = join(
        &NO_AB,
        &[Two::B, Two::A],
        &[Two::A, Two::A],
        &mut text,
        &mut work,
    )?;
    assert_eq!(rt;
        r,
        Joined {
            length: 3,
            overlap: 1,
            filled: 0,
        }
    );
    assert_eq!(rt; text, [Two::B, Two::A, Two::A, Two::B]);
    assert_eq!(rt; work, [0, 0, 0, 0, 0, 0, 0, 0, 65535, 65535]);
    Ok(())
}

// A rise and a fall have a steady interval filled in.
#[test]
fn fills_the_first_letter(rt: HostRuntime) -> Result<(), Fail> {
    let mut text = [Trend::ScaleMark; 4];
    let mut work = [7u16; 8];
    let r = join(&CALM, &[Trend::Rise], &[Trend::Fall], &mut text, &mut work)?;
    assert_eq!(rt;
        r,
        Joined {
            length: 3,
            overlap: 0,
            filled: 1,
        }
    );
    assert_eq!(rt;
        text,
        [Trend::Rise, Trend::Steady, Trend::Fall, Trend::ScaleMark]
    );
    assert_eq!(rt; work, [0; 8]);
    Ok(())
}

// A text table of one letter too few, and of just enough.
#[test]
fn needs_room_for_the_string(rt: HostRuntime) -> Result<(), Fail> {
    let mut short = [Trend::ScaleMark; 2];
    let mut work = [7u16; 8];
    assert_eq!(rt;
        join(&CALM, &[Trend::Rise], &[Trend::Fall], &mut short, &mut work),
        Err(Fault::ShortText(3))
    );
    assert_eq!(rt; short, [Trend::ScaleMark; 2]);
    assert_eq!(rt; work, [0; 8]);
    let mut text = [Trend::ScaleMark; 3];
    let r = join(&CALM, &[Trend::Rise], &[Trend::Fall], &mut text, &mut work)?;
    assert_eq!(rt; r.length, 3);
    assert_eq!(rt; text, [Trend::Rise, Trend::Steady, Trend::Fall]);
    Ok(())
}

// The whole of both contexts overlaps, and two empty ones join to nothing.
#[test]
fn whole_and_empty_contexts(rt: HostRuntime) -> Result<(), Fail> {
    let mut text = [Two::B; 3];
    let mut work = [1u16; 8];
    let whole = join(
        &NO_AB,
        &[Two::A, Two::A],
        &[Two::A, Two::A],
        &mut text,
        &mut work,
    )?;
    assert_eq!(rt;
        whole,
        Joined {
            length: 2,
            overlap: 2,
            filled: 0,
        }
    );
    assert_eq!(rt; text, [Two::A, Two::A, Two::B]);
    let empty = join(&Shut, &[], &[], &mut text, &mut work)?;
    assert_eq!(rt;
        empty,
        Joined {
            length: 0,
            overlap: 0,
            filled: 0,
        }
    );
    assert_eq!(rt; text, [Two::A, Two::A, Two::B]);
    Ok(())
}

// No string exists; a context is stopped, the left one first; the work table is a word too short.
#[test]
fn refuses(rt: HostRuntime) {
    let mut text = [Two::B; 4];
    let mut work = [9u16; 8];
    assert_eq!(rt;
        join(&NO_AB, &[Two::A], &[Two::B], &mut text, &mut work),
        Err(Fault::NoString(0))
    );
    assert_eq!(rt; work, [0; 8]);
    assert_eq!(rt;
        join(&NO_AB, &[Two::A, Two::B], &[Two::B], &mut text, &mut work),
        Err(Fault::StoppedContext(1))
    );
    assert_eq!(rt;
        join(&NO_AB, &[Two::B], &[Two::A, Two::B], &mut text, &mut work),
        Err(Fault::StoppedContext(2))
    );
    assert_eq!(rt;
        join(&Shut, &[], &[Two::B], &mut text, &mut work),
        Err(Fault::StoppedContext(0))
    );
    let mut short = [9u16; 7];
    assert_eq!(rt;
        join(&NO_AB, &[Two::A], &[Two::A], &mut text, &mut short),
        Err(Fault::ShortWork(8))
    );
    assert_eq!(rt; short, [9; 7]);
    assert_eq!(rt; text, [Two::B; 4]);
}

// Contexts of 50,000 letters are joined, and one letter more is refused, the left context first.
#[test]
fn long_contexts(rt: HostRuntime) -> Result<(), Fail> {
    let letters = [Two::A; 50001];
    let mut text = [Two::B; 50000];
    let mut work = [9u16; 8];
    let r = join(
        &NO_AB,
        &letters[0..50000],
        &letters[0..50000],
        &mut text,
        &mut work,
    )?;
    assert_eq!(rt;
        r,
        Joined {
            length: 50000,
            overlap: 50000,
            filled: 0,
        }
    );
    assert_eq!(rt;
        join(&NO_AB, &letters, &letters[0..50000], &mut text, &mut work),
        Err(Fault::LongContext(50001))
    );
    assert_eq!(rt;
        join(&Shut, &letters[0..50000], &letters, &mut text, &mut work),
        Err(Fault::LongContext(50001))
    );
    Ok(())
}

// A search over four tables that are lent apart, and a way over tables that come from no search.
#[test]
fn tables_lent_apart_and_a_way_of_ones_own(rt: HostRuntime) -> Result<(), Fail> {
    let mut seen = [65535u16; 2];
    let mut queue = [65535u16; 2];
    let mut parents = [65535u16; 2];
    let mut letters = [65535u16; 2];
    let search = Search::apart(&NO_AB, &mut seen, &mut queue, &mut parents, &mut letters);
    let way = search.find(&[Two::B, Two::A], &[Two::A, Two::A], 1);
    assert_eq!(rt;
        way.map(|way| way.joined(3)),
        Some(Joined {
            length: 3,
            overlap: 1,
            filled: 0,
        })
    );
    let trail = Trail {
        parents: &[0, 0, 1],
        letters: &[0, 1, 0],
        place: 2,
        filled: 5000,
    };
    assert_eq!(rt; Way::Filling(trail).added(3), 5003);
    Ok(())
}
