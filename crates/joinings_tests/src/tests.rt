use joinings::{Desk, Desks, join_file};
use lent::LentList;
use letters::Two;
use lists::Record;
use pages::Printed;

// Joins by a file of the two-letter kind, on a table for 16 letters of contexts and a text table of 8.
fn run(input: &[u8], out: &mut [u8]) -> Printed {
    let mut records = [Record::BLANK; 512];
    let mut words = [0; 1024];
    let mut letters = [Two::A; 16];
    let mut text = [Two::A; 8];
    let mut work = [0; 128];
    join_file(
        input,
        &mut LentList {
            records: &mut records,
            words: &mut words,
        },
        &mut Desks {
            two: Desk {
                letters: &mut letters,
                text: &mut text,
            },
            trend: Desk {
                letters: &mut [],
                text: &mut [],
            },
            seepage: Desk {
                letters: &mut [],
                text: &mut [],
            },
        },
        &mut work,
        out,
    )
}

#[test]
fn joined_by_a_filling(rt: HostRuntime) {
    let mut out = [b'.'; 160];
    let printed = run(b"LA\n!bbbb\n!aaba\n!abba\n>aab?aba\n; done", &mut out);
    assert!(rt; printed.done);
    assert_eq!(rt; printed.length, 142);
    assert_eq!(rt;
        &out[0..143],
        b"kind A: ab\npatterns: 3\nrun limit: none\nautomaton: 9 states, memory 3\nleft: 3 letters\nright: 3 letters\noverlap: 0\nfilled: 2\nlength: 8\naabbbaba\n.".as_slice()
    );
}

#[test]
fn joined_by_an_overlap(rt: HostRuntime) {
    let mut out = [b'.'; 160];
    let printed = run(b"LA\nk   9\nr   2\n>ab?ba\n", &mut out);
    assert!(rt; printed.done);
    assert_eq!(rt; printed.length, 134);
    assert_eq!(rt;
        &out[0..135],
        b"kind A: ab\npatterns: 0\nrun limit: 2\nautomaton: 5 states, memory 2\nleft: 2 letters\nright: 2 letters\noverlap: 1\nfilled: 0\nlength: 3\naba\n.".as_slice()
    );
}

#[test]
fn refused(rt: HostRuntime) {
    for (input, line) in [
        (&b""[..], &b"R  11F     0     0\n"[..]),
        (&b"LA\n!a\n"[..], &b"R  11F     0     0\n"[..]),
        (&b"LB\n>a?b\n"[..], &b"R  11F     0     1\n"[..]),
        (&b"LA\n\n>a?b\n"[..], &b"R  11F     0     2\n"[..]),
        (&b"LA\n>ab\n"[..], &b"R  11F     0     2\n"[..]),
        (&b"LA\n>a?b\n;\n>a?b\n"[..], &b"R  11F     0     4\n"[..]),
        (&b"LA\n!ax\n>a?b\n"[..], &b"R   1L     1     2\n"[..]),
        (&b"LA\n>xb?a\n"[..], &b"R   1L     0     2\n"[..]),
        (&b"LA\n>ab?a?\n"[..], &b"R   1L     4     2\n"[..]),
        (
            &b"LA\n>aaaaaaaaaaaaaaaaa?\n"[..],
            &b"R   4J    17     2\n"[..],
        ),
        (&b"LA\nr   0\n>a?b\n"[..], &b"R   5S     0     3\n"[..]),
        (&b"LA\nr   9\n>a?b\n"[..], &b"R   5S     9     3\n"[..]),
        (&b"LA\n!ab\n>aba?b\n"[..], &b"R   7J     1     3\n"[..]),
        (&b"LA\n!ab\n>a?aab\n"[..], &b"R   7J     3     3\n"[..]),
        (&b"LA\n!ab\n>a?b\n"[..], &b"R   8J     0     3\n"[..]),
        (&b"LA\n>aaaa?bbbbb\n"[..], &b"R   9J     9     2\n"[..]),
    ] {
        let mut out = [b'.'; 20];
        let printed = run(input, &mut out);
        assert!(rt; !printed.done);
        assert_eq!(rt; printed.length, 19);
        assert_eq!(rt; &out[0..19], line);
    }
}
