// Run automata and pairs at both ends of their ranges, walks, checks and texts.
use crate::idle::Idle;
use crate::kinds::{One, Wide};
use automata::{Automaton, check as check_text, walk};
use faults::Fault;
use letters::{Letter, Seepage, Trend, Two};
use pairs::Pair;
use runs::Run;
use std::process::Abort;
use std::test::Fail;
use texts::{check_bytes, stray};

#[test]
fn the_run_limit_is_1_to_8(rt: HostRuntime) -> Result<(), Fail> {
    for limit in 1..=8u16 {
        let run = Run::<Two>::new(limit)?;
        assert_eq!(rt; run.limit(), limit);
        assert_eq!(rt; run.states(), 1 + 2 * limit);
        assert_eq!(rt; run.memory(), limit);
    }
    for limit in [0, 9, 9999, 65535] {
        assert_eq!(rt;
            Run::<Two>::new(limit).err(),
            Some(Fault::BadLimit(limit as usize))
        );
    }
    Ok(())
}

// Where the first `length` letters of a text are stopped.
fn front_stopped<L: Letter>(
    rt: &impl Abort,
    limit: u16,
    text: &[L],
    length: usize,
) -> Result<Option<usize>, Fail> {
    let run = Run::<L>::new(limit)?;
    assert!(rt; length <= text.len());
    Ok(check_text(&run, &text[0..length]))
}

// `text` is ten times one letter.
fn stops_longer_runs<L: Letter>(rt: &impl Abort, text: &[L]) -> Result<(), Fail> {
    for limit in 1..=8u16 {
        let r = limit as usize;
        assert_eq!(rt; front_stopped(rt, limit, text, 0)?, None);
        assert_eq!(rt; front_stopped(rt, limit, text, r)?, None);
        assert_eq!(rt; front_stopped(rt, limit, text, r + 1)?, Some(r));
        assert_eq!(rt; front_stopped(rt, limit, text, 10)?, Some(r));
    }
    Ok(())
}

#[test]
fn a_longer_run_is_stopped(rt: HostRuntime) -> Result<(), Fail> {
    stops_longer_runs(&rt, &[Two::B; 10])?;
    stops_longer_runs(&rt, &[One::Only; 10])?;
    stops_longer_runs(
        &rt,
        &[Wide {
            a: true,
            b: true,
            c: true,
            d: true,
            e: true,
        }; 10],
    )?;
    assert_eq!(rt; Run::<Wide>::new(8)?.states(), 257);
    assert_eq!(rt; Run::<One>::new(1)?.states(), 2);
    Ok(())
}

#[test]
fn a_step_from_no_state_stops(rt: HostRuntime) -> Result<(), Fail> {
    let run = Run::<Trend>::new(4)?;
    assert_eq!(rt; run.states(), 25);
    for state in [25, 26, 4096, 65535] {
        assert_eq!(rt; run.step(state, Trend::Steady), None);
        assert_eq!(rt; run.step(state, Trend::ScaleMark), None);
    }
    assert!(rt; run.step(24, Trend::Steady).is_some());
    assert!(rt; walk(&run, run.first(), &[Trend::Steady; 4]).is_some());
    assert_eq!(rt; walk(&run, run.first(), &[Trend::Steady; 5]), None);
    assert_eq!(rt; walk(&run, 7, &[]), Some(7));
    Ok(())
}

#[test]
fn a_pair_has_at_most_4096_states(rt: HostRuntime) -> Result<(), Fail> {
    for (left, right) in [(64, 64), (1, 4096), (4096, 1), (1, 1)] {
        let pair = Pair::new(Idle::<Two>::new(left), Idle::<Two>::new(right))?;
        assert_eq!(rt; pair.states() as u32, left as u32 * right as u32);
        assert_eq!(rt; pair.step(pair.states(), Two::A), None);
        assert_eq!(rt; pair.step(65535, Two::A), None);
    }
    for (left, right, product) in [(17, 241, 4097), (2, 4096, 8192), (4096, 4096, 16777216)] {
        let pair = Pair::new(Idle::<Two>::new(left), Idle::<Two>::new(right));
        assert_eq!(rt; pair.err(), Some(Fault::LargePair(product)));
    }
    Ok(())
}

#[test]
fn a_pair_of_pairs_passes_what_all_pass(rt: HostRuntime) -> Result<(), Fail> {
    let inner = Pair::new(Run::<Two>::new(3)?, Run::<Two>::new(2)?)?;
    let pair = Pair::new(inner, Run::<Two>::new(4)?)?;
    assert_eq!(rt; pair.memory(), 4);
    assert_eq!(rt; pair.states(), 7 * 5 * 9);
    assert_eq!(rt; check_text(&pair, &[Two::A, Two::A, Two::B, Two::A]), None);
    assert_eq!(rt;
        check_text(&pair, &[Two::B, Two::A, Two::A, Two::A]),
        Some(3)
    );
    Ok(())
}

#[test]
fn a_text_is_read_for_letters_first(rt: HostRuntime) -> Result<(), Fail> {
    let run = Run::<Two>::new(2)?;
    assert_eq!(rt; check_bytes(&run, b"")?, None);
    assert_eq!(rt; check_bytes(&run, b"aaa")?, Some(2));
    assert_eq!(rt; check_bytes(&run, b"aabaabb")?, None);
    assert_eq!(rt; check_bytes(&run, b"aaa?").err(), Some(Fault::NoLetter(3)));
    assert_eq!(rt; check_bytes(&run, b"\naa").err(), Some(Fault::NoLetter(0)));
    assert_eq!(rt; stray::<Seepage>(b"aAdDe"), Some(4));
    assert_eq!(rt; stray::<Seepage>(b""), None);
    Ok(())
}
