// A program on one file: it reads the file, answers it on a page, and prints the page.
ghost use Rattle.pages.specs.declared.printed.Printed.{Printed};
ghost use Rattle.std.specs.Prelude.{◌≡◌, Ok, IfOk, if◌then◌else◌};

use files::INPUT;
use pages::Printed;
use std::io;
use std::io::{Read, Write};
use std::process::ExitCode;

// The status of a program: 0 where what was asked for was done.
fn status(done: bool) -> ExitCode
    ensures { result ≡ (if done then ExitCode.SUCCESS else ExitCode.FAILURE) }
{
    if done {
        ExitCode::SUCCESS
    } else {
        ExitCode::FAILURE
    }
}

// Reads a file from standard input, has it answered on a page of `size` bytes, and prints what was written. The answer may
// want memory, since its tables are made once the file is read.
pub fn run<F: FnOnce(&[u8], &mut [u8]) -> io::Result<Printed>>(
    rt: &HostRuntime,
    size: usize,
    answer: F,
) -> io::Result<ExitCode>
    requires { F.IsAlwaysCallable answer }
    ensures { IfOk result (λ code. (bytes : _) × (out : _) × (printed : Printed) × (left : _) × F.post answer bytes out (Ok printed) left × (code ≡ (if printed.done then ExitCode.SUCCESS else ExitCode.FAILURE))) }
{
    let heap = rt.alloc();
    let mut input = Vec::new(heap);
    // one byte more than a file may have, so that a longer one is seen to be longer
    rt.stdin().take(INPUT as u64 + 1).read_to_end(&mut input)?;
    let mut out = vec![in heap; 0u8; size]?;
    let Printed { length, done } = answer(&input, &mut out)?;
    out.truncate(length);
    rt.stdout().write_all(&out)?;
    Ok(status(done))
}
