// The line of a call: what a letter or a gap answered.
ghost use Rattle.std.specs.Prelude.{◌≡◌, [], ◌∷◌, ◌++◌, is_ok, codes};
ghost use Rattle.pages.specs.Pages.{Wrote, labelled};
ghost use Rattle.stepping.specs.Replies.{fault_part, answer_part, letter_part, gap_part};

use faults::Fault;
use pages::Page;
use sheetlaw::Answer;

// Writes why a call is refused.
fn show_fault(fault: Fault, page: &mut Page<'_>)
    ensures { Wrote page.old page.new (fault_part fault) }
{
    page.labelled(b" refused: ", fault.number() as usize, b" ");
    page.push(fault.layer_byte());
    page.labelled(b" ", fault.place(), b"\n");
}

// Writes how many letters were appended for a kept window, and how many of these were filled in.
fn show_kept(appended: usize, filled: usize, page: &mut Page<'_>)
    ensures { Wrote page.old page.new (labelled (codes " kept: ") appended (codes " appended, ") ++ labelled [] filled (codes " filled\n")) }
{
    page.labelled(b" kept: ", appended, b" appended, ");
    page.labelled(b"", filled, b" filled\n");
}

// Writes what a letter answered.
fn show_answer(answer: Answer, page: &mut Page<'_>)
    ensures { Wrote page.old page.new (answer_part answer) }
{
    match answer {
        Answer::Pending => page.put(b" pending\n"),
        Answer::Skipped => page.put(b" skipped\n"),
        Answer::Kept { appended, filled } => show_kept(appended, filled, page),
    }
}

// Writes what a letter answered or why it is refused, and answers whether it was taken.
fn end_letter(answer: Result<Answer, Fault>, page: &mut Page<'_>) -> bool
    ensures page { Wrote page.old page.new (letter_part answer) }
    ensures taken { result ≡ is_ok answer }
{
    match answer {
        Ok(answer) => {
            show_answer(answer, page);
            true
        }
        Err(fault) => {
            show_fault(fault, page);
            false
        }
    }
}

// The same of a gap. One function for both would take a closure that writes, and be no plainer than these two.
fn end_gap(answer: Result<(), Fault>, page: &mut Page<'_>) -> bool
    ensures page { Wrote page.old page.new (gap_part answer) }
    ensures taken { result ≡ is_ok answer }
{
    match answer {
        Ok(_) => {
            page.put(b" gap\n");
            true
        }
        Err(fault) => {
            show_fault(fault, page);
            false
        }
    }
}

// Writes the line of a letter at `place`, and answers whether it was taken.
pub fn show_letter(
    place: usize,
    byte: u8,
    answer: Result<Answer, Fault>,
    page: &mut Page<'_>,
) -> bool
    ensures page { Wrote page.old page.new (labelled [] place (32 ∷ []) ++ (byte ∷ letter_part answer)) }
    ensures taken { result ≡ is_ok answer }
{
    page.labelled(b"", place, b" ");
    page.push(byte);
    end_letter(answer, page)
}

// Writes the line of a gap at `place`, and answers whether it was taken.
pub fn show_gap(place: usize, answer: Result<(), Fault>, page: &mut Page<'_>) -> bool
    ensures page { Wrote page.old page.new (labelled [] place (codes " ?") ++ gap_part answer) }
    ensures taken { result ≡ is_ok answer }
{
    page.labelled(b"", place, b" ?");
    end_gap(answer, page)
}
