// A user of lists whose contract follows from theirs alone, and tests at both ends of each range.
#![tactic(auto)]

ghost use Rattle.std.specs.Prelude.{◌≡◌, [], length, IfOk, Some, None};
ghost use Rattle.models.specs.Strings.{Occurs};
ghost use Rattle.lists.specs.Taking.{cause, refused};

use automata::{Automaton, check};
use faults::Fault;
use letters::Letter;
use lists::{Builder, Record};

// Where `text` is stopped by a list of one pattern: nowhere exactly when the pattern does not occur in it. The two tables come
// side by side, as a list takes them.
pub fn seek<L: Letter>(
    records: &mut [Record],
    words: &mut [u16],
    pattern: &[L],
    text: &[L],
) -> Result<Option<usize>, Fault>
    ensures found { IfOk result (λ o. (o ≡ None → Occurs pattern.now text.now → ⊥) × ((Occurs pattern.now text.now → ⊥) → o ≡ None)) }
    ensures refused { refused result ≡ cause L.Letter.alphabet (length records.old) (length words.old) [] pattern.now }
{
    let mut list: Builder<L> = Builder::start(records, words);
    list.add(pattern)?;
    let done = list.finish();
    Ok(check(&done, text))
}

#[cfg(test)]
mod tests {
    use automata::{Automaton, check as stopped};
    use faults::Fault;
    use letters::{Letter, Trend, Two};
    use lists::{Builder, Record};
    use std::process::Abort;
    use std::test::Fail;

    // The number and the place of a refusal, or 0 and 0.
    fn code(answer: Result<(), Fault>) -> (u8, usize) {
        match answer {
            Ok(()) => (0, 0),
            Err(fault) => (fault.number(), fault.place()),
        }
    }

    #[test]
    fn lengths(rt: HostRuntime) {
        let mut records = [Record::BLANK; 512];
        let mut words = [0; 1024];
        let mut list: Builder<Two> = Builder::start(&mut records, &mut words);
        assert_eq!(rt; code(list.add_bytes(b"")), (2, 0));
        assert_eq!(rt; code(list.add_bytes(b"a")), (0, 0));
        assert_eq!(rt; code(list.add_bytes(b"abababababab")), (0, 0));
        assert_eq!(rt; code(list.add_bytes(b"ababababababa")), (2, 13));
        assert_eq!(rt; code(list.add_bytes(b"ab?")), (1, 2));
        assert_eq!(rt; code(list.add_bytes(b"abababababababx")), (1, 14));
        assert_eq!(rt; list.patterns(), 2);
    }

    // The letter with a number, the first one past the kind's end.
    fn letter(n: u8) -> Trend {
        Trend::from_number(n).unwrap_or(Trend::Steady)
    }

    // Takes 52 patterns of 12 letters, which bring 511 states.
    fn crowd(list: &mut Builder<Trend>) -> Result<(), Fault> {
        for n in 0..52 {
            let mut pattern = [Trend::Steady; 12];
            pattern[0] = letter(n % 6);
            pattern[1] = letter(n / 6 % 6);
            pattern[2] = letter(n / 36);
            list.add(&pattern)?;
        }
        Ok(())
    }

    #[test]
    fn states(rt: HostRuntime) {
        let mut records = [Record::BLANK; 512];
        let mut words = [0; 3072];
        let mut list: Builder<Trend> = Builder::start(&mut records, &mut words);
        assert_eq!(rt; code(crowd(&mut list)), (0, 0));
        let s = Trend::Steady;
        assert_eq!(rt; code(list.add(&[s, s, s, Trend::Rise, s])), (0, 0));
        assert_eq!(rt; code(list.add(&[s, s, s, Trend::Fall, s])), (3, 53));
        assert_eq!(rt;
            code(list.add(&[s, s, s, Trend::Rise, Trend::Rise])),
            (0, 0)
        );
        let list = list.finish();
        assert_eq!(rt; list.states(), 512);
        assert_eq!(rt; list.memory(), 11);
        assert_eq!(rt; list.patterns(), 54);
    }

    #[test]
    fn patterns(rt: HostRuntime) {
        let mut records = [Record::BLANK; 512];
        let mut words = [0; 1024];
        let mut list: Builder<Two> = Builder::start(&mut records, &mut words);
        for _ in 0..64 {
            assert_eq!(rt; code(list.add_bytes(b"b")), (0, 0));
        }
        assert_eq!(rt; code(list.add_bytes(b"b")), (3, 64));
        let list = list.finish();
        assert_eq!(rt; list.patterns(), 64);
        assert_eq!(rt; list.states(), 1);
        assert_eq!(rt; list.memory(), 0);
        assert_eq!(rt; stopped(&list, &[Two::A, Two::A, Two::B]), Some(2));
    }

    // What a list without room answers.
    fn short(rt: &impl Abort, records: &mut [Record], words: &mut [u16]) {
        let mut list: Builder<Two> = Builder::start(records, words);
        assert_eq!(rt; code(list.add_bytes(b"ab")), (4, 512));
        assert_eq!(rt; code(list.add_bytes(b"")), (4, 512));
        assert_eq!(rt; code(list.add_bytes(b"a?")), (1, 1));
        let list = list.finish();
        assert_eq!(rt; list.patterns(), 0);
        assert_eq!(rt; list.states(), 1);
        assert_eq!(rt; list.memory(), 0);
        assert_eq!(rt; list.step(1, Two::A), None);
        assert_eq!(rt; stopped(&list, &[Two::A, Two::B, Two::A, Two::B]), None);
    }

    // The same on tables of so many records and words.
    fn short_at(rt: &impl Abort, record_count: usize, word_count: usize) -> Result<(), Fail> {
        let mut records = [Record::BLANK; 512];
        let mut words = [0; 1024];
        if record_count > 512 || word_count > 1024 {
            return Err(Fail::new("no such tables"));
        }
        short(rt, &mut records[0..record_count], &mut words[0..word_count]);
        Ok(())
    }

    #[test]
    fn tables(rt: HostRuntime) -> Result<(), Fail> {
        short_at(&rt, 511, 1024)?;
        short_at(&rt, 512, 1023)?;
        short_at(&rt, 511, 1023)?;
        short_at(&rt, 512, 0)?;
        short_at(&rt, 0, 1024)?;
        short_at(&rt, 0, 0)
    }

    #[test]
    fn nested(rt: HostRuntime) {
        let mut records = [Record::BLANK; 512];
        let mut words = [0; 1024];
        let mut list: Builder<Two> = Builder::start(&mut records, &mut words);
        assert_eq!(rt; code(list.add_bytes(b"abab")), (0, 0));
        assert_eq!(rt; code(list.add_bytes(b"ba")), (0, 0));
        assert_eq!(rt; code(list.add_bytes(b"ba")), (0, 0));
        let list = list.finish();
        let other = list;
        assert_eq!(rt; other.states(), 5);
        assert_eq!(rt; other.memory(), 3);
        assert_eq!(rt; list.patterns(), 3);
        assert_eq!(rt; stopped(&other, &[Two::A, Two::B, Two::A]), Some(2));
        assert_eq!(rt; stopped(&list, &[Two::A, Two::A, Two::B, Two::B]), None);
    }
}
