// Station files, and what the check prints of each: every cause that a check can meet, and both ends of its ranges.
#![tactic(auto)]

#[cfg(test)]
mod tests {
    use checks::check_file;
    use lent::LentList;
    use lists::Record;
    use std::alloc::Global;
    use std::process::Abort;
    use std::test::Fail;

    // What is printed of a file, with tables of `records` and `words`; `passes` says whether the text passes.
    fn same(
        rt: &impl Abort,
        heap: Global,
        input: &[u8],
        records: usize,
        words: usize,
        want: &[u8],
        passes: bool,
    ) -> Result<(), Fail> {
        let mut table = vec![in heap; Record::BLANK; records]?;
        let mut cells = vec![in heap; 0u16; words]?;
        let mut out = vec![in heap; b'.'; 256]?;
        let printed = check_file(
            input,
            &mut LentList {
                records: &mut table,
                words: &mut cells,
            },
            &mut out,
        );
        assert_eq!(rt; printed.done, passes);
        assert_eq!(rt; printed.length, want.len());
        out.truncate(printed.length);
        assert_eq!(rt; out.as_slice(), want);
        Ok(())
    }

    fn report(
        rt: &impl Abort,
        heap: Global,
        input: &[u8],
        want: &[u8],
        passes: bool,
    ) -> Result<(), Fail> {
        same(rt, heap, input, 512, 4096, want, passes)
    }

    #[test]
    fn texts_are_checked(rt: HostRuntime) -> Result<(), Fail> {
        let heap = rt.alloc();
        report(
            &rt,
            heap,
            b"LA\nr   2\n>aaa\n",
            b"kind A: ab\npatterns: 0\nrun limit: 2\nautomaton: 5 states, memory 2\ntext: 3 letters\nwalked: 2 letters\nstopped at 2\n",
            false,
        )?;
        report(
            &rt,
            heap,
            b"LA\n!abab\n!ba\n>aba",
            b"kind A: ab\npatterns: 2\nrun limit: none\nautomaton: 5 states, memory 3\ntext: 3 letters\nwalked: 2 letters\nstopped at 2\n",
            false,
        )?;
        report(
            &rt,
            heap,
            b"LA\n>",
            b"kind A: ab\npatterns: 0\nrun limit: none\nautomaton: 1 states, memory 0\ntext: 0 letters\nwalked: 0 letters\npasses\n",
            true,
        )?;
        report(
            &rt,
            heap,
            b";\nLQ\n;\nk9999\nr   8\n!aA\n!aA\n>AaAa\n;\n",
            b"kind Q: aAbBcCdD\npatterns: 2\nrun limit: 8\nautomaton: 130 states, memory 8\ntext: 4 letters\nwalked: 2 letters\nstopped at 2\n",
            false,
        )?;
        report(
            &rt,
            heap,
            b"LP\nr   1\n!S\n>=+-*/=",
            b"kind P: =+-*/S\npatterns: 1\nrun limit: 1\nautomaton: 7 states, memory 1\ntext: 6 letters\nwalked: 6 letters\npasses\n",
            true,
        )
    }

    #[test]
    fn files_are_refused_at_their_first_fault(rt: HostRuntime) -> Result<(), Fail> {
        let heap = rt.alloc();
        for (input, want) in [
            (&b""[..], &b"R  11F     0     0\n"[..]),
            (&b"; only\n"[..], &b"R  11F     0     0\n"[..]),
            (&b"LA\n!a\n"[..], &b"R  11F     0     0\n"[..]),
            (&b"LX\n>a"[..], &b"R  11F     0     1\n"[..]),
            (&b"LA\n\n>a"[..], &b"R  11F     0     2\n"[..]),
            (&b"LA\nk  04\n>a"[..], &b"R  11F     0     2\n"[..]),
            (&b"LA\n>a\n>b"[..], &b"R  11F     0     3\n"[..]),
            (&b"LA\nr   0\n>a"[..], &b"R   5S     0     3\n"[..]),
            (&b"LA\nr   9\n!x\n>a"[..], &b"R   1L     0     3\n"[..]),
            (&b"LA\nr9999\n>x"[..], &b"R   5S  9999     3\n"[..]),
            (&b"LA\n!a?\n>a"[..], &b"R   1L     1     2\n"[..]),
            (&b"LA\n!\n>a"[..], &b"R   2P     0     2\n"[..]),
            (&b"LA\n!aaaaaaaaaaaaa\n>a"[..], &b"R   2P    13     2\n"[..]),
            (&b"LA\n>ab?"[..], &b"R   1L     2     2\n"[..]),
            (&b"LA\n>ab\r\n"[..], &b"R   1L     2     2\n"[..]),
        ] {
            report(&rt, heap, input, want, false)?;
        }
        same(
            &rt,
            heap,
            b"LA\n!a\n>a",
            511,
            4096,
            b"R   4P   512     2\n",
            false,
        )?;
        same(
            &rt,
            heap,
            b"LA\n!a\n>a",
            512,
            1023,
            b"R   4P   512     2\n",
            false,
        )?;
        same(
            &rt,
            heap,
            b"LA\n!b\n>a",
            512,
            1024,
            b"kind A: ab\npatterns: 1\nrun limit: none\nautomaton: 1 states, memory 0\ntext: 1 letters\nwalked: 1 letters\npasses\n",
            true,
        )?;
        same(
            &rt,
            heap,
            b"LA\n>a",
            0,
            0,
            b"kind A: ab\npatterns: 0\nrun limit: none\nautomaton: 1 states, memory 0\ntext: 1 letters\nwalked: 1 letters\npasses\n",
            true,
        )
    }

    // 60,000 bytes are a file, and one more is none.
    #[test]
    fn a_file_has_at_most_60000_bytes(rt: HostRuntime) -> Result<(), Fail> {
        let heap = rt.alloc();
        let mut input = vec![in heap; b'a'; 60000]?;
        assert!(rt; input.len() >= 4);
        input[0] = b'L';
        input[1] = b'A';
        input[2] = b'\n';
        input[3] = b'>';
        report(
            &rt,
            heap,
            &input,
            b"kind A: ab\npatterns: 0\nrun limit: none\nautomaton: 1 states, memory 0\ntext: 59996 letters\nwalked: 59996 letters\npasses\n",
            true,
        )?;
        input.push(b'a')?;
        report(&rt, heap, &input, b"R  11F     0     0\n", false)
    }
}
