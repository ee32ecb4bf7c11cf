// Pages, lines and numbers in columns.
use faults::{Fault, Layer};
use files::lines::classify;
use files::{Line, Lines, Name, Refusal, read_four};
use pages::Page;
use stations::{Form, Kind, header, tail};
use std::test::Fail;

// What `bytes` columns of page take of a number, in `width` columns.
fn written(page: &mut [u8], width: usize, n: usize) -> usize {
    let mut page = Page::new(page);
    page.columns(width, n);
    page.used()
}

#[test]
fn numbers_stand_in_columns(rt: HostRuntime) {
    let mut page = [b'.'; 24];
    assert_eq!(rt; written(&mut page, 6, 0), 6);
    assert_eq!(rt; &page[0..7], b"     0.".as_slice());
    assert_eq!(rt; written(&mut page, 6, 999999), 6);
    assert_eq!(rt; &page[0..7], b"999999.".as_slice());
    assert_eq!(rt; written(&mut page, 6, 1000000), 7);
    assert_eq!(rt; &page[0..8], b"1000000.".as_slice());
    assert_eq!(rt; written(&mut page, 4, 18446744073709551615), 20);
    assert_eq!(rt; &page[0..21], b"18446744073709551615.".as_slice());
    let mut short = [b'.'; 3];
    assert_eq!(rt; written(&mut short, 6, 7), 3);
    assert_eq!(rt; &short[..], b"   ".as_slice());
    assert_eq!(rt; written(&mut [], 6, 7), 0);
}

#[test]
fn a_number_is_read_from_four_columns(rt: HostRuntime) {
    for (n, field) in [
        (0, b"   0"),
        (7, b"   7"),
        (10, b"  10"),
        (4000, b"4000"),
        (9999, b"9999"),
    ] {
        assert_eq!(rt; read_four(field), Some(n));
    }
    for field in [
        b"    ", b"  04", b"  00", b"4   ", b" 4 0", b"  +4", b"  -4", b"\t  4", b"000 ",
    ] {
        assert_eq!(rt; read_four(field), None);
    }
    assert_eq!(rt; read_four(b"  4"), None);
    assert_eq!(rt; read_four(b"    4"), None);
    assert_eq!(rt; read_four(b""), None);
}

// How many lines there are, and how many of them break the rules. As many turns at most as there are bytes, so that it ends.
fn counted(input: &[u8]) -> (usize, usize) {
    let mut lines = Lines::new(input);
    let mut broken = 0usize;
    for _i in 0..input.len() {
        match lines.next_line() {
            Some(Ok(_)) => {}
            Some(Err(_)) => broken = broken.saturating_add(1),
            None => return (lines.number(), broken),
        }
    }
    (lines.number(), broken)
}

#[test]
fn a_last_newline_starts_no_line(rt: HostRuntime) {
    for (input, count, broken) in [
        (&b""[..], 0, 0),
        (&b"\n"[..], 1, 1),
        (&b";"[..], 1, 0),
        (&b";\n"[..], 1, 0),
        (&b";\n\n"[..], 2, 1),
        (&b";\n;"[..], 2, 0),
        (&b"LA\r\nx\n>a"[..], 3, 1),
    ] {
        assert_eq!(rt; counted(input), (count, broken));
    }
}

fn content(line: &[u8]) -> Option<(Name, usize)> {
    match classify(line) {
        Ok(Line::Setting(name, content)) => Some((name, content.len())),
        _ => None,
    }
}

#[test]
fn the_first_byte_tells_what_a_line_is(rt: HostRuntime) {
    assert_eq!(rt; content(b"LA"), Some((Name::Kind, 1)));
    assert_eq!(rt; content(b"k   4"), Some((Name::Window, 4)));
    assert_eq!(rt; content(b"r"), Some((Name::Limit, 0)));
    assert_eq!(rt; content(b"K   4"), None);
    assert!(rt; classify(b"").is_err());
    assert!(rt; classify(b" LA").is_err());
    assert!(rt; classify(b"\xff").is_err());
    assert!(rt; classify(b";\xff").is_ok());
}

// The kind that a file names, and the line at which it is refused.
fn named(input: &[u8]) -> (Option<Kind>, usize) {
    let mut lines = Lines::new(input);
    match header(&mut lines) {
        Ok(kind) => (Some(kind), lines.number()),
        Err(refusal) => (None, refusal.line),
    }
}

#[test]
fn the_kind_comes_first(rt: HostRuntime) {
    assert_eq!(rt; named(b"LA"), (Some(Kind::Two), 1));
    assert_eq!(rt; named(b";\n; x\nLP\n"), (Some(Kind::Trend), 3));
    assert_eq!(rt; named(b"LQ\n\n"), (Some(Kind::Seepage), 1));
    for (input, line) in [
        (&b""[..], 0),
        (&b";"[..], 0),
        (&b"k   4\nLA"[..], 1),
        (&b";\nLB"[..], 2),
        (&b"LA\r"[..], 1),
        (&b"\nLA"[..], 1),
        (&b"L"[..], 1),
    ] {
        assert_eq!(rt; named(input), (None, line));
    }
}

// The line at which the settings of a file are refused, or 0. As many turns at most as there are bytes, so that it ends.
fn settings(input: &[u8]) -> usize {
    let mut lines = Lines::new(input);
    let mut form = Form::new();
    for _i in 0..input.len() {
        match lines.next_line() {
            Some(Ok(line)) => {
                if form.take(line).is_err() {
                    return lines.number();
                }
            }
            Some(Err(_)) => return lines.number(),
            None => return 0,
        }
    }
    0
}

#[test]
fn settings_stand_in_their_order(rt: HostRuntime) {
    for (input, line) in [
        (&b"k   4\nr   2\n!a\n!b\n>a"[..], 0),
        (&b"r   2\n;\n>"[..], 0),
        (&b"!\n;\n!\n>"[..], 0),
        (&b"r   2\nk   4"[..], 2),
        (&b"k   4\nk   4"[..], 2),
        (&b"r   2\nr   2"[..], 2),
        (&b"!a\nr   2"[..], 2),
        (&b"!a\nk   2"[..], 2),
        (&b"LA"[..], 1),
        (&b"k  04"[..], 1),
        (&b"r4   "[..], 1),
    ] {
        assert_eq!(rt; settings(input), line);
    }
}

#[test]
fn only_remarks_follow_the_trace(rt: HostRuntime) -> Result<(), Fail> {
    assert!(rt; tail(&mut Lines::new(b"")).is_ok());
    assert!(rt; tail(&mut Lines::new(b";\n;x\n")).is_ok());
    match tail(&mut Lines::new(b";\n>a\n")) {
        Ok(_) => Err(Fail::new("not refused")),
        Err(refusal) => {
            assert_eq!(rt;
                refusal,
                Refusal {
                    fault: Fault::BrokenFile,
                    line: 2,
                }
            );
            Ok(())
        },
    }
}

#[test]
fn a_refusal_is_one_line(rt: HostRuntime) {
    let mut bytes = [b'.'; 24];
    let mut page = Page::new(&mut bytes);
    Refusal {
        fault: Fault::NoString(4),
        line: 12,
    }
    .show(&mut page);
    assert_eq!(rt; page.used(), 19);
    assert_eq!(rt; &bytes[0..20], b"R   8J     4    12\n.".as_slice());
    for (fault, byte) in [
        (Fault::NoLetter(1), b'L'),
        (Fault::BadLength(13), b'P'),
        (Fault::FullList(64), b'P'),
        (Fault::ShortTables, b'P'),
        (Fault::ShortWork(4), b'J'),
        (Fault::BadLimit(9), b'S'),
        (Fault::LargePair(4097), b'S'),
        (Fault::BadWindow(1), b'T'),
        (Fault::LongMemory(4), b'T'),
        (Fault::StoppedContext(1), b'J'),
        (Fault::ShortText(3), b'J'),
        (Fault::LongContext(50001), b'J'),
        (Fault::FullSheet, b'T'),
        (Fault::BrokenFile, b'F'),
    ] {
        assert_eq!(rt; fault.layer_byte(), byte);
    }
    assert_eq!(rt; Fault::ShortTables.place(), 512);
    assert_eq!(rt; Fault::FullSheet.place(), 50000);
    assert_eq!(rt; Fault::FullSheet.layer(), Layer::Sheet);
}
