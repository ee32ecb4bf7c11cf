// Rewrites the trace of a station file that is read from standard input. Status 0: the text was written.
#![tactic(auto)]

use rewrites::rewrite_file;
use std::io;
use std::process::ExitCode;
use tables::{Letters, Listing, TEXT, WORK, run};

// The longest text with its newline, and the five counts with theirs; longer than any refusal line.
const PAGE: usize = TEXT + 256;

fn main(rt: HostRuntime) -> io::Result<ExitCode> {
    let heap = rt.alloc();
    run(&rt, PAGE, |input, out| {
        let mut list = Listing::new(heap)?;
        let mut text = Letters::new(heap, TEXT)?;
        let mut search = vec![in heap; 0u16; WORK]?;
        Ok(rewrite_file(input, &mut list.lend(), &mut text.lend(), &mut search, out))
    })
}
