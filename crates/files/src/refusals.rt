// Refusals: a fault, and the line of the file at which it was found.
ghost use Rattle.std.specs.Prelude.{◌≡◌};
ghost use Rattle.pages.specs.Pages.{Wrote};
ghost use Rattle.files.specs.Refusals.{refusal_line, at_line};

use faults::Fault;
use pages::Page;

#[derive(Clone, Copy, Debug, PartialEq, Eq)]
pub struct Refusal {
    pub fault: Fault,
    // 0 where it is of no line, as it is printed
    pub line: usize,
}

// What came out of line `line`: a fault is refused there.
pub fn at_line<T>(res: Result<T, Fault>, line: usize) -> Result<T, Refusal>
    ensures { result ≡ at_line res line }
{
    res.map_err(|fault| Refusal { fault, line })
}

impl Refusal {
    // Writes the refusal line.
    pub fn show(&self, page: &mut Page<'_>)
        ensures { Wrote page.old page.new (refusal_line self.now) }
    {
        page.push(b'R');
        page.columns(4, self.fault.number() as usize);
        page.push(self.fault.layer_byte());
        page.columns(6, self.fault.place());
        page.columns(6, self.line);
        page.push(b'\n');
    }
}
