// Opening, windows that fit or do not, the tables, and the most letters and gaps.
use automata::Automaton;
use base_tests::idle::Idle;
use faults::Fault;
use letters::Two;
use runs::Run;
use sheetlaw::{Answer, Counts};
use sheets::Sheet;
use std::test::Fail;

fn opened(limit: u16, k: u16) -> Result<Sheet<Run<Two>>, Fault> {
    Sheet::open(Run::<Two>::new(limit)?, k)
}

// Gives the letters of a trace; the last answer.
fn give<S: Automaton>(
    sheet: &mut Sheet<S>,
    trace: &[S::Kind],
    text: &mut [S::Kind],
    work: &mut [u16],
) -> Result<Answer, Fault> {
    let mut answer = Answer::Pending;
    for letter in trace {
        answer = sheet.letter(*letter, text, work)?;
    }
    Ok(answer)
}

#[test]
fn the_window_length_is_2_to_12_and_the_memory_at_most_that(rt: HostRuntime) {
    for k in [2, 3, 11, 12] {
        assert_eq!(rt; opened(2, k).err(), None);
    }
    for k in [0, 1, 13, 9999] {
        assert_eq!(rt; opened(8, k).err(), Some(Fault::BadWindow(k as usize)));
    }
    assert_eq!(rt; opened(4, 4).err(), None);
    assert_eq!(rt; opened(5, 4).err(), Some(Fault::LongMemory(5)));
}

#[test]
fn one_letter_more_can_cost_a_filling(rt: HostRuntime) -> Result<(), Fail> {
    let mut sheet = opened(4, 4)?;
    let mut text = [Two::B; 9];
    let mut work = [7u16; 40];
    assert_eq!(rt;
        give(&mut sheet, &[Two::A; 3], &mut text, &mut work)?,
        Answer::Pending
    );
    assert_eq!(rt;
        sheet.letter(Two::A, &mut text, &mut work)?,
        Answer::Kept {
            appended: 4,
            filled: 0,
        }
    );
    assert_eq!(rt;
        sheet.letter(Two::A, &mut text, &mut work)?,
        Answer::Kept {
            appended: 5,
            filled: 1,
        }
    );
    for (i, letter) in text.iter().enumerate() {
        assert_eq!(rt; *letter, if i == 4 { Two::B } else { Two::A });
    }
    for (i, word) in work.iter().enumerate() {
        assert_eq!(rt; *word, if i < 36 { 0 } else { 7 });
    }
    assert_eq!(rt;
        sheet.close(),
        Counts {
            letters: 5,
            kept: 2,
            skipped: 0,
            text: 9,
            filled: 1,
        }
    );
    Ok(())
}

// A first window of four letters.
fn window(text: &mut [Two]) -> Result<Answer, Fault> {
    let mut sheet = opened(2, 4)?;
    let mut work = [0u16; 20];
    give(
        &mut sheet,
        &[Two::A, Two::B, Two::A, Two::B],
        text,
        &mut work,
    )
}

#[test]
fn a_first_window_needs_a_text_table_of_its_length(rt: HostRuntime) -> Result<(), Fail> {
    let mut none: [Two; 0] = [];
    let mut short = [Two::A; 3];
    let mut whole = [Two::A; 4];
    assert_eq!(rt; window(&mut none).err(), Some(Fault::ShortText(4)));
    assert_eq!(rt; window(&mut short).err(), Some(Fault::ShortText(4)));
    assert_eq!(rt;
        window(&mut whole)?,
        Answer::Kept {
            appended: 4,
            filled: 0,
        }
    );
    Ok(())
}

#[test]
fn a_short_work_table_is_refused_and_left(rt: HostRuntime) -> Result<(), Fail> {
    let mut sheet = opened(2, 2)?;
    let mut text = [Two::B; 2];
    let mut work = [7u16; 20];
    assert_eq!(rt;
        sheet.letter(Two::A, &mut text, &mut work[0..19]).err(),
        Some(Fault::ShortWork(20))
    );
    for word in work {
        assert_eq!(rt; word, 7);
    }
    assert_eq!(rt; sheet.close().letters, 0);
    Ok(())
}

#[test]
fn a_skipped_window_counts_and_a_gap_breaks_a_window(rt: HostRuntime) -> Result<(), Fail> {
    let mut sheet = opened(1, 2)?;
    let mut text = [Two::B; 2];
    let mut work = [0u16; 12];
    assert_eq!(rt;
        sheet.letter(Two::A, &mut text, &mut work)?,
        Answer::Pending
    );
    assert_eq!(rt;
        sheet.letter(Two::A, &mut text, &mut work)?,
        Answer::Skipped
    );
    sheet.gap()?;
    assert_eq!(rt;
        sheet.letter(Two::B, &mut text, &mut work)?,
        Answer::Pending
    );
    assert_eq!(rt;
        sheet.close(),
        Counts {
            letters: 3,
            kept: 0,
            skipped: 1,
            text: 0,
            filled: 0,
        }
    );
    Ok(())
}

#[test]
fn equal_windows_do_not_merge(rt: HostRuntime) -> Result<(), Fail> {
    let mut sheet = Sheet::open(Idle::<Two>::new(1), 2)?;
    let mut text = [Two::B; 4];
    let mut work = [0u16; 4];
    assert_eq!(rt;
        give(&mut sheet, &[Two::A; 4], &mut text, &mut work)?,
        Answer::Kept {
            appended: 1,
            filled: 0,
        }
    );
    for letter in text {
        assert_eq!(rt; letter, Two::A);
    }
    assert_eq!(rt;
        sheet.close(),
        Counts {
            letters: 4,
            kept: 3,
            skipped: 0,
            text: 4,
            filled: 0,
        }
    );
    Ok(())
}

#[test]
fn at_most_50000_letters_and_gaps_are_taken(rt: HostRuntime) -> Result<(), Fail> {
    let mut sheet = opened(2, 2)?;
    let mut text = [Two::A; 2];
    let mut work = [0u16; 20];
    for _ in 0..49999 {
        sheet.gap()?;
    }
    sheet.gap()?;
    assert_eq!(rt; sheet.gap().err(), Some(Fault::FullSheet));
    assert_eq!(rt;
        sheet.letter(Two::A, &mut text, &mut work).err(),
        Some(Fault::FullSheet)
    );
    assert_eq!(rt; sheet.close().letters, 0);
    Ok(())
}
