// Many station files in one run, for comparison with another implementation. Standard input holds frames, each ended by
// a byte 0: its first byte says the program, `w` to rewrite, `j` to join and `c` to check, and the rest is the file. For
// each frame it prints what that program prints, and then its status and a newline. The tables are used again from file
// to file, so what a file leaves in them meets the next one.
#![tactic(auto)]

ghost use Rattle.std.specs.Prelude.{◌≤◌, length};

use checks::check_file;
use files::INPUT;
use joinings::{Desks, join_file};
use pages::Printed;
use rewrites::rewrite_file;
use std::io;
use std::io::{Read, Write};
use tables::{Letters, Listing, TEXT, WORK};

// Longer than what is printed of any file.
const PAGE: usize = TEXT + 512;

// All that the three programs lend.
#[derive(Drop)]
struct Tables {
    list: Listing,
    contexts: Letters,
    text: Letters,
    search: Vec<u16>,
}

impl Tables {
    fn rewrite(&mut self, file: &[u8], out: &mut [u8]) -> Printed
        ensures { result.length ≤ length out.old }
    {
        rewrite_file(
            file,
            &mut self.list.lend(),
            &mut self.text.lend(),
            &mut self.search,
            out,
        )
    }

    fn join(&mut self, file: &[u8], out: &mut [u8]) -> Printed
        ensures { result.length ≤ length out.old }
    {
        join_file(
            file,
            &mut self.list.lend(),
            &mut Desks::new(self.contexts.lend(), self.text.lend()),
            &mut self.search,
            out,
        )
    }

    fn check(&mut self, file: &[u8], out: &mut [u8]) -> Printed
        ensures { result.length ≤ length out.old }
    {
        check_file(file, &mut self.list.lend(), out)
    }

    // What the frame's program writes to `out`; its status is 0 where it is done. A case for each program, since their calls
    // take different tables.
    fn answer(&mut self, frame: &[u8], out: &mut [u8]) -> Printed
        ensures { result.length ≤ length out.old }
    {
        match frame {
            [b'w', file @ ..] => self.rewrite(file, out),
            [b'j', file @ ..] => self.join(file, out),
            [b'c', file @ ..] => self.check(file, out),
            _ => Printed {
                length: 0,
                done: false,
            },
        }
    }
}

// Writes what a program printed, and its status.
fn show(rt: &HostRuntime, printed: &[u8], done: bool) -> io::Result<()> {
    rt.stdout().write_all(printed)?;
    rt.stdout().write_all(if done { b"0\n" } else { b"1\n" })
}

// Answers each frame; bytes after the last byte 0 are no frame, and so `split` would give one piece too many.
fn work(rt: &HostRuntime, input: &[u8], tables: &mut Tables, out: &mut [u8]) -> io::Result<()> {
    let mut rest = input;
    while let Some(end) = rest.iter().position(|byte| *byte == 0) {
        let Printed { length, done } = tables.answer(&rest[0..end], out);
        show(rt, &out[0..length], done)?;
        rest = &rest[end + 1..];
    }
    Ok(())
}

fn main(rt: HostRuntime) -> io::Result<()> {
    let heap = rt.alloc();
    let mut input = Vec::new(heap);
    rt.stdin().read_to_end(&mut input)?;
    let mut tables = Tables {
        list: Listing::new(heap)?,
        contexts: Letters::new(heap, INPUT)?,
        text: Letters::new(heap, TEXT)?,
        search: vec![in heap; 0u16; WORK]?,
    };
    let mut out = vec![in heap; 0u8; PAGE]?;
    work(&rt, &input, &mut tables, &mut out)
}
