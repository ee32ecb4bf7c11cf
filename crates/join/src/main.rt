// Joins the two contexts on the trace line of a station file that is read from standard input. Status 0: they are joined.
#![tactic(auto)]

use files::INPUT;
use joinings::{Desks, join_file};
use std::io;
use std::process::ExitCode;
use tables::{Letters, Listing, TEXT, WORK, run};

// Longer than any report: a text, and the lines before it.
const PAGE: usize = TEXT + 512;

fn main(rt: HostRuntime) -> io::Result<ExitCode> {
    let heap = rt.alloc();
    run(&rt, PAGE, |input, out| {
        let mut list = Listing::new(heap)?;
        // the contexts have as many letters at most as a file has bytes
        let mut contexts = Letters::new(heap, INPUT)?;
        let mut text = Letters::new(heap, TEXT)?;
        let mut search = vec![in heap; 0u16; WORK]?;
        Ok(join_file(
            input,
            &mut list.lend(),
            &mut Desks::new(contexts.lend(), text.lend()),
            &mut search,
            out,
        ))
    })
}
