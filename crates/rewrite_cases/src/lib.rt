// Station files, and what is printed of each when it is rewritten: texts, every cause that can be met, and both ends of
// the ranges.
#![tactic(auto)]

#[cfg(test)]
mod tests {
    use lent::{LentLetters, LentList};
    use letters::{Flow, Seepage, Trend, Two};
    use lists::Record;
    use rewrites::rewrite_file;
    use std::alloc::Global;
    use std::process::Abort;
    use std::test::Fail;

    // What is printed of a file, with a work table of `work` words; `written` says whether it is a text.
    fn same(
        rt: &impl Abort,
        heap: Global,
        input: &[u8],
        work: usize,
        want: &[u8],
        written: bool,
    ) -> Result<(), Fail> {
        let mut records = vec![in heap; Record::BLANK; 512]?;
        let mut words = vec![in heap; 0u16; 4096]?;
        let mut two = vec![in heap; Two::A; 32]?;
        let mut trend = vec![in heap; Trend::Steady; 32]?;
        let mut seepage = vec![in heap; Seepage {
            flow: Flow::Zero,
            cloudy: false
        }; 32]?;
        let mut table = vec![in heap; 0u16; work]?;
        let mut out = vec![in heap; b'.'; 256]?;
        let printed = rewrite_file(
            input,
            &mut LentList {
                records: &mut records,
                words: &mut words,
            },
            &mut LentLetters {
                two: &mut two,
                trend: &mut trend,
                seepage: &mut seepage,
            },
            &mut table,
            &mut out,
        );
        assert_eq!(rt; printed.done, written);
        assert_eq!(rt; printed.length, want.len());
        out.truncate(printed.length);
        assert_eq!(rt; out.as_slice(), want);
        Ok(())
    }

    #[test]
    fn files_are_rewritten_or_refused(rt: HostRuntime) -> Result<(), Fail> {
        let heap = rt.alloc();
        for (input, want) in [
            (
                &b"LA\nk   4\n!bbbb\n!aaba\n!abba\n>abbbbaaabaa\n"[..],
                &b"abbbaaabbbabaa\n    11     6     2    14     2\n"[..],
            ),
            (
                &b"LA\nk   4\nr   4\n>aaaaa"[..],
                &b"aaaabaaaa\n     5     2     0     9     1\n"[..],
            ),
            (
                &b"LA\nk   3\n!aaa\n>baaaaab"[..],
                &b"baab\n     7     2     3     4     0\n"[..],
            ),
            (
                &b";\nLA\n;\nk   2\n>aaaa\n;"[..],
                &b"aaaa\n     4     3     0     4     0\n"[..],
            ),
            (
                &b"LA\nk   2\n>aa?bb"[..],
                &b"aabb\n     4     2     0     4     0\n"[..],
            ),
            (
                &b"LA\nk   2\n>"[..],
                &b"\n     0     0     0     0     0\n"[..],
            ),
            (&b"LA\n>aaa"[..], &b"\n     3     0     0     0     0\n"[..]),
            (
                &b"LA\n>aaaa"[..],
                &b"aaaa\n     4     1     0     4     0\n"[..],
            ),
            (
                &b"LP\nk   2\n!+S\n>=+S"[..],
                &b"=+\n     3     1     1     2     0\n"[..],
            ),
            (
                &b"LQ\nk   2\n>aA?Dd"[..],
                &b"aADd\n     4     2     0     4     0\n"[..],
            ),
        ] {
            same(&rt, heap, input, 16384, want, true)?;
        }
        for (input, want) in [
            (&b""[..], &b"R  11F     0     0\n"[..]),
            (&b"LA\n!a\n"[..], &b"R  11F     0     0\n"[..]),
            (&b"LA\nk  04\n>a"[..], &b"R  11F     0     2\n"[..]),
            (&b"LA\nr   2\nk   2\n>a"[..], &b"R  11F     0     3\n"[..]),
            (&b"LA\n>a\n>b"[..], &b"R  11F     0     3\n"[..]),
            (&b"LA\n>ax\n>b"[..], &b"R   1L     1     2\n"[..]),
            (&b"LA\nr   9\n!x\n>a"[..], &b"R   1L     0     3\n"[..]),
            (&b"LA\n!\n>a"[..], &b"R   2P     0     2\n"[..]),
            (&b"LA\nk   0\nr   9\n>x"[..], &b"R   5S     9     4\n"[..]),
            (&b"LA\nk   1\n>x"[..], &b"R   5T     1     3\n"[..]),
            (&b"LA\nk  13\n>x"[..], &b"R   5T    13     3\n"[..]),
            (&b"LA\nk   2\n!aaaa\n>x"[..], &b"R   6T     3     4\n"[..]),
            (&b"LA\n>a?x"[..], &b"R   1L     2     2\n"[..]),
            (&b"LA\n>ab\r\n"[..], &b"R   1L     2     2\n"[..]),
            (
                &b"LA\nk   2\n!ab\n>aa?bbx"[..],
                &b"R   8J     4     4\n"[..],
            ),
            (
                &b"LA\nk   2\n>aaaaaaaaaaaaaaaaaaaaaaaaaaaaaaaaa"[..],
                &b"R   9J    33     3\n"[..],
            ),
        ] {
            same(&rt, heap, input, 16384, want, false)?;
        }
        same(
            &rt,
            heap,
            b"LA\nk   2\n>a",
            3,
            b"R   4J     4     3\n",
            false,
        )?;
        same(
            &rt,
            heap,
            b"LA\nk   2\n>?",
            0,
            b"\n     0     0     0     0     0\n",
            true,
        )
    }

    // The end of what is printed of a file that begins with `head` and goes on with equal bytes up to so many in all, on
    // the program's tables.
    fn long(
        rt: &impl Abort,
        heap: Global,
        head: &[u8],
        size: usize,
        end: &[u8],
        written: bool,
    ) -> Result<(), Fail> {
        let mut input = Vec::new(heap);
        input.extend_from_slice(head)?;
        input.resize(size, b'a')?;
        let mut records = vec![in heap; Record::BLANK; 512]?;
        let mut words = vec![in heap; 0u16; 4096]?;
        let mut two = vec![in heap; Two::A; 30000]?;
        let mut table = vec![in heap; 0u16; 16384]?;
        let mut out = vec![in heap; b'.'; 30256]?;
        let printed = rewrite_file(
            &input,
            &mut LentList {
                records: &mut records,
                words: &mut words,
            },
            &mut LentLetters {
                two: &mut two,
                trend: &mut [],
                seepage: &mut [],
            },
            &mut table,
            &mut out,
        );
        assert_eq!(rt; printed.done, written);
        out.truncate(printed.length);
        assert!(rt; out.as_slice().ends_with(end));
        Ok(())
    }

    // The last byte of a file, of a text and of a trace that are taken, and one byte more.
    #[test]
    fn files_texts_and_traces_have_a_longest(rt: HostRuntime) -> Result<(), Fail> {
        let heap = rt.alloc();
        long(
            &rt,
            heap,
            b"LA\nk   2\n>ab\n;",
            60000,
            b"ab\n     2     1     0     2     0\n",
            true,
        )?;
        long(
            &rt,
            heap,
            b"LA\nk   2\n>ab\n;",
            60001,
            b"R  11F     0     0\n",
            false,
        )?;
        long(
            &rt,
            heap,
            b"LA\nk   2\n>",
            30010,
            b"a\n 30000 29999     0 30000     0\n",
            true,
        )?;
        long(
            &rt,
            heap,
            b"LA\nk   2\n>",
            30011,
            b"R   9J 30001     3\n",
            false,
        )?;
        long(
            &rt,
            heap,
            b"LA\nk   2\n!aa\n>",
            50014,
            b"\n 50000     0 49999     0     0\n",
            true,
        )?;
        long(
            &rt,
            heap,
            b"LA\nk   2\n!aa\n>",
            50015,
            b"R  10T 50000     4\n",
            false,
        )?;
        long(
            &rt,
            heap,
            b"LA\nk   2\n!aa\n>?",
            50014,
            b"\n 49999     0 49998     0     0\n",
            true,
        )?;
        long(
            &rt,
            heap,
            b"LA\nk   2\n!aa\n>?",
            50015,
            b"R  10T 50000     4\n",
            false,
        )
    }
}
