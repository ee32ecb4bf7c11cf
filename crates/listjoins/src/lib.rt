// The join by a finished list, said of its patterns alone.
#![tactic(auto)]

ghost use Rattle.std.specs.Prelude.{◌≡◌, List, length};
ghost use Rattle.joinlaw.specs.Bridges.{join as join_of};
ghost use Rattle.joins.specs.Answers.{answer as answer_of, text_after, work_after};
ghost use Rattle.listlaw.specs.Table.{Means};
ghost use Rattle.lists.specs.Meaning.{listed};
ghost use Rattle.listjoins.specs.Free.{FreeIs, Impossible};

use faults::Fault;
use joins::{Joined, join};
use letters::Letter;
use lists::Listed;

// The shortest string that begins with `left`, ends with `right` and in which no listed pattern occurs, the first in
// letter order among equals, written at the front of the text table.
//
// `answer`, `text` and `work` are those of any join. `free` says of the patterns that the list means that what overlap and
// filling give is that string, or that there is none, and `impossible` that 8 is answered exactly when there is none,
// unless an earlier cause holds.
pub fn join_listed<L: Letter>(
    list: &Listed<'_, L>,
    left: &[L],
    right: &[L],
    text: &mut [L],
    work: &mut [u16],
) -> Result<Joined, Fault>
    ensures answer { result ≡ answer_of L.Letter.alphabet (listed L.Letter.alphabet list.now) left.now right.now (length text.old) (length work.old) }
    ensures text { text.new ≡ text_after result L.Letter.alphabet (listed L.Letter.alphabet list.now) left.now right.now text.old }
    ensures work { work.new ≡ work_after (listed L.Letter.alphabet list.now) work.old }
    ensures free { (ps : List (List L)) → Means L.Letter.alphabet (listed L.Letter.alphabet list.now) ps → FreeIs L.Letter.alphabet ps left.now right.now (join_of L.Letter.alphabet (listed L.Letter.alphabet list.now) left.now right.now) }
    ensures impossible { (ps : List (List L)) → Means L.Letter.alphabet (listed L.Letter.alphabet list.now) ps → Impossible L.Letter.alphabet ps left.now right.now (length work.old) result }
{
    join(&*list, left, right, text, work)
}
