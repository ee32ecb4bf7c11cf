// Shows the calls that the trace of a station file makes on a sheet. Status 0: every letter and gap was taken.
#![tactic(auto)]

use files::INPUT;
use std::io;
use std::process::ExitCode;
use stepping::steps_file;
use tables::{Letters, Listing, TEXT, WORK, run};

// 48 bytes for the line of each of 60,000 letters and gaps, the longest text, and the other lines.
const PAGE: usize = 48 * INPUT + TEXT + 512;

fn main(rt: HostRuntime) -> io::Result<ExitCode> {
    let heap = rt.alloc();
    run(&rt, PAGE, |input, out| {
        let mut list = Listing::new(heap)?;
        let mut text = Letters::new(heap, TEXT)?;
        let mut search = vec![in heap; 0u16; WORK]?;
        Ok(steps_file(input, &mut list.lend(), &mut text.lend(), &mut search, out))
    })
}
