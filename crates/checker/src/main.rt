// Checks the text of a station file that is read from standard input. Status 0: the text passes.
#![tactic(auto)]

use checks::check_file;
use std::io;
use std::process::ExitCode;
use tables::{Listing, run};

// Longer than any report.
const PAGE: usize = 256;

fn main(rt: HostRuntime) -> io::Result<ExitCode> {
    let heap = rt.alloc();
    run(&rt, PAGE, |input, out| {
        let mut list = Listing::new(heap)?;
        Ok(check_file(input, &mut list.lend(), out))
    })
}
