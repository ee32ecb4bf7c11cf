// Station files: the kind that a file names, its settings, and the order of its lines.
#![tactic(auto)]

ghost use Rattle.std.specs.Prelude.{◌≡◌, ◌+◌, Some, None, Ok, Err};
ghost use Rattle.files.specs.Lines.{items, meant, meant_line};
ghost use Rattle.files.specs.Fields.{read};
ghost use Rattle.stations.specs.Stations.{kind_named, first_line, last_line, headed, head_left, take_line, handed, ended, tail_left, early as too_early, well_formed};

use faults::Fault;
use files::refusals::at_line;
use files::{Line, Lines, Name, Refusal, read_four};

// A letter kind by its name in a file: `A`, `P` or `Q`.
#[derive(Clone, Copy, Debug, PartialEq, Eq)]
pub enum Kind {
    Two,
    Trend,
    Seepage,
}

// How far a file has come after its kind line.
#[derive(Clone, Copy, Debug, PartialEq, Eq)]
pub enum Stage {
    Named,
    Windowed,
    Limited,
    Listing,
}

// The settings of a file so far.
#[derive(Clone, Copy)]
pub struct Form {
    pub stage: Stage,
    pub window: Option<u16>,
    pub limit: Option<u16>,
}

// What a line may hand on to whoever reads the file: a pattern or the trace, as parts of the input.
#[derive(Clone, Copy)]
pub enum Part<'a> {
    Pattern(&'a [u8]),
    Trace(&'a [u8]),
}

// The kind that the content of a kind line names. One caller wants an `Option` of it; a `TryFrom` would be the same table with
// an error of its own.
fn kind_of(content: &[u8]) -> Option<Kind>
    ensures { result ≡ kind_named content.now }
{
    match content {
        b"A" => Some(Kind::Two),
        b"P" => Some(Kind::Trend),
        b"Q" => Some(Kind::Seepage),
        _ => None,
    }
}

// A number in four columns, or that the line breaks the rules.
fn number(content: &[u8]) -> Result<u16, Fault>
    ensures { result ≡ well_formed (read 4 content.now) }
{
    read_four(content).ok_or(Fault::BrokenFile)
}

// A line before the kind is named: a remark, or the kind.
fn opening(line: Line<'_>) -> Result<Option<Kind>, Fault>
    ensures { result ≡ first_line (meant_line line.entry) }
{
    match line {
        Line::Remark(_) => Ok(None),
        Line::Setting(Name::Kind, content) => Ok(Some(kind_of(content).ok_or(Fault::BrokenFile)?)),
        _ => Err(Fault::BrokenFile),
    }
}

// A line after the trace: a remark.
fn closing(line: Line<'_>) -> Result<(), Fault>
    ensures { result ≡ last_line (meant_line line.entry) }
{
    match line {
        Line::Remark(_) => Ok(()),
        _ => Err(Fault::BrokenFile),
    }
}

impl Form {
    // The settings right after the kind line.
    pub fn new() -> Form
        ensures { result ≡ record { stage = Stage.Named; window = None; limit = None } }
    {
        Form {
            stage: Stage::Named,
            window: None,
            limit: None,
        }
    }

    // One more line after the kind line, up to the trace.
    pub fn take<'a>(&mut self, line: Line<'a>) -> Result<Option<Part<'a>>, Fault>
        ensures { elim result [ Ok p ↦ take_line self.old (meant_line line.entry) ≡ Ok (self.new, handed p) | Err f ↦ (take_line self.old (meant_line line.entry) ≡ Err f) × (self.new ≡ self.old) ] }
    {
        match (self.stage, line) {
            (_, Line::Remark(_)) => Ok(None),
            (Stage::Named, Line::Setting(Name::Window, content)) => {
                self.window = Some(number(content)?);
                self.stage = Stage::Windowed;
                Ok(None)
            }
            (Stage::Named | Stage::Windowed, Line::Setting(Name::Limit, content)) => {
                self.limit = Some(number(content)?);
                self.stage = Stage::Limited;
                Ok(None)
            }
            (_, Line::Pattern(content)) => {
                self.stage = Stage::Listing;
                Ok(Some(Part::Pattern(content)))
            }
            (_, Line::Trace(content)) => Ok(Some(Part::Trace(content))),
            _ => Err(Fault::BrokenFile),
        }
    }
}

// Reads up to the kind line, and answers the kind that it names.
pub fn header(lines: &mut Lines<'_>) -> Result<Kind, Refusal>
    ensures answer { elim result [ Ok k ↦ headed (lines.old.number + 1) (items lines.old.rest.now) ≡ Ok (k, (lines.new.number + 1, items lines.new.rest.now)) | Err e ↦ headed (lines.old.number + 1) (items lines.old.rest.now) ≡ Err e ] }
    ensures left { (lines.new.number + 1, items lines.new.rest.now) ≡ head_left (lines.old.number + 1) (items lines.old.rest.now) }
{
    while let Some(line) = lines.next_line() {
        if let Some(kind) = at_line(line.and_then(opening), lines.number())? {
            return Ok(kind);
        }
    }
    Err(early())
}

// Reads the lines after the trace.
pub fn tail(lines: &mut Lines<'_>) -> Result<(), Refusal>
    ensures answer { result ≡ ended (lines.old.number + 1) (items lines.old.rest.now) }
    ensures left { (lines.new.number + 1, items lines.new.rest.now) ≡ tail_left (lines.old.number + 1) (items lines.old.rest.now) }
{
    while let Some(line) = lines.next_line() {
        at_line(line.and_then(closing), lines.number())?;
    }
    Ok(())
}

// A file that ends before its kind or its trace.
pub fn early() -> Refusal
    ensures { result ≡ too_early }
{
    Refusal {
        fault: Fault::BrokenFile,
        line: 0,
    }
}
