// Station files, and what is printed of each when its trace is followed: every answer of a call, and every cause that can
// refuse the file or a call.
#![tactic(auto)]

#[cfg(test)]
mod tests {
    use lent::{LentLetters, LentList};
    use letters::{Flow, Seepage, Trend, Two};
    use lists::Record;
    use std::alloc::Global;
    use std::process::Abort;
    use std::test::Fail;
    use stepping::steps_file;

    // What is printed of a file, with a text table of `text` letters and a work table of `work` words; `complete` says whether
    // every letter and gap is taken.
    fn same(
        rt: &impl Abort,
        heap: Global,
        input: &[u8],
        text: usize,
        work: usize,
        want: &[u8],
        complete: bool,
    ) -> Result<(), Fail> {
        let mut records = vec![in heap; Record::BLANK; 512]?;
        let mut words = vec![in heap; 0u16; 4096]?;
        let mut two = vec![in heap; Two::A; text]?;
        let mut trend = vec![in heap; Trend::Steady; text]?;
        let mut seepage = vec![in heap; Seepage {
            flow: Flow::Zero,
            cloudy: false
        }; text]?;
        let mut table = vec![in heap; 0u16; work]?;
        let mut out = vec![in heap; b'.'; 1024]?;
        let printed = steps_file(
            input,
            &mut LentList {
                records: &mut records,
                words: &mut words,
            },
            &mut LentLetters {
                two: &mut two,
                trend: &mut trend,
                seepage: &mut seepage,
            },
            &mut table,
            &mut out,
        );
        assert_eq!(rt; printed.done, complete);
        assert_eq!(rt; printed.length, want.len());
        out.truncate(printed.length);
        assert_eq!(rt; out.as_slice(), want);
        Ok(())
    }

    #[test]
    fn traces_are_followed(rt: HostRuntime) -> Result<(), Fail> {
        let heap = rt.alloc();
        same(
            &rt,
            heap,
            b"LA\n>",
            32,
            16384,
            b"kind A: ab\npatterns: 0\nrun limit: none\nautomaton: 1 states, memory 0\nwindow: 4\ntrace: 0 letters and gaps\ntext: \nletters taken: 0\nwindows kept: 0\nwindows skipped: 0\ntext letters: 0\nfilled letters: 0\n",
            true,
        )?;
        same(
            &rt,
            heap,
            b"LP\nk   2\nr   1\n!+S\n>=+S?=\n;",
            32,
            16384,
            b"kind P: =+-*/S\npatterns: 1\nrun limit: 1\nautomaton: 14 states, memory 1\nwindow: 2\ntrace: 5 letters and gaps\n0 = pending\n1 + kept: 2 appended, 0 filled\n2 S skipped\n3 ? gap\n4 = pending\ntext: =+\nletters taken: 4\nwindows kept: 1\nwindows skipped: 1\ntext letters: 2\nfilled letters: 0\n",
            true,
        )?;
        // a refused letter changes nothing, and the sheet goes on
        same(
            &rt,
            heap,
            b"LA\nk   2\n!ab\n>aa?bb?aa",
            32,
            16384,
            b"kind A: ab\npatterns: 1\nrun limit: none\nautomaton: 2 states, memory 1\nwindow: 2\ntrace: 8 letters and gaps\n0 a pending\n1 a kept: 2 appended, 0 filled\n2 ? gap\n3 b pending\n4 b refused: 8 J 4\n5 ? gap\n6 a pending\n7 a kept: 1 appended, 0 filled\ntext: aaa\nletters taken: 5\nwindows kept: 2\nwindows skipped: 0\ntext letters: 3\nfilled letters: 0\n",
            false,
        )?;
        same(
            &rt,
            heap,
            b"LA\nk   2\n>aaaa",
            3,
            16384,
            b"kind A: ab\npatterns: 0\nrun limit: none\nautomaton: 1 states, memory 0\nwindow: 2\ntrace: 4 letters and gaps\n0 a pending\n1 a kept: 2 appended, 0 filled\n2 a kept: 1 appended, 0 filled\n3 a refused: 9 J 4\ntext: aaa\nletters taken: 3\nwindows kept: 2\nwindows skipped: 0\ntext letters: 3\nfilled letters: 0\n",
            false,
        )?;
        same(
            &rt,
            heap,
            b"LQ\nk   2\n>aD?",
            32,
            3,
            b"kind Q: aAbBcCdD\npatterns: 0\nrun limit: none\nautomaton: 1 states, memory 0\nwindow: 2\ntrace: 3 letters and gaps\n0 a refused: 4 J 4\n1 D refused: 4 J 4\n2 ? gap\ntext: \nletters taken: 0\nwindows kept: 0\nwindows skipped: 0\ntext letters: 0\nfilled letters: 0\n",
            false,
        )
    }

    #[test]
    fn files_are_refused_at_their_first_fault(rt: HostRuntime) -> Result<(), Fail> {
        let heap = rt.alloc();
        for (input, want) in [
            (&b""[..], &b"R  11F     0     0\n"[..]),
            (&b"LA\n!a\n"[..], &b"R  11F     0     0\n"[..]),
            (&b"LX\n>a"[..], &b"R  11F     0     1\n"[..]),
            (&b"LA\nk  04\n>a"[..], &b"R  11F     0     2\n"[..]),
            (&b"LA\n!ax\n>a"[..], &b"R   1L     1     2\n"[..]),
            (&b"LA\n!\n>a"[..], &b"R   2P     0     2\n"[..]),
            (&b"LA\nk   0\nr   9\n>x"[..], &b"R   5S     9     4\n"[..]),
            (&b"LA\nk   1\n>x"[..], &b"R   5T     1     3\n"[..]),
            (&b"LA\nk  13\n>x"[..], &b"R   5T    13     3\n"[..]),
            (&b"LA\nk   2\n!aaaa\n>x"[..], &b"R   6T     3     4\n"[..]),
            (
                &b"LA\nk   2\n!ab\n>aa?bbx"[..],
                &b"R   1L     5     4\n"[..],
            ),
            (&b"LA\n>ax\n>b"[..], &b"R   1L     1     2\n"[..]),
            (&b"LA\n>a\n>b"[..], &b"R  11F     0     3\n"[..]),
        ] {
            same(&rt, heap, input, 32, 16384, want, false)?;
        }
        Ok(())
    }
}
