// What is found of two contexts.
ghost use Rattle.std.specs.Prelude.{◌≡◌, length};
ghost use Rattle.texts.specs.Texts.{reading};
ghost use Rattle.joinings.specs.Findings.{said, joining, settled};

use crate::contexts::{Contexts, read_contexts};
use automata::Automaton;
use faults::Fault;
use joins::join;
use letters::{Letter, Printable};
use listings::Limited;

// What came of two contexts: the automaton's count of states and its memory, the letters of the contexts, the overlap
// taken, the letters filled in, and the joined text as a part of the text table.
#[derive_where(Clone, Copy)]
pub struct Finding<'a, L> {
    pub states: usize,
    pub memory: usize,
    pub left: usize,
    pub right: usize,
    pub overlap: usize,
    pub filled: usize,
    pub text: &'a [L],
}

// Joins the contexts by `automaton`.
fn join_by<'a, S: Automaton>(
    automaton: &S,
    contexts: Contexts<'_, S::Kind>,
    text: &'a mut [S::Kind],
    work: &mut [u16],
) -> Result<Finding<'a, S::Kind>, Fault>
    ensures { said result ≡ joining S.Kind.Letter.alphabet (S.model automaton.now) (length text.old) (length work.old) contexts.entry.left.now contexts.entry.right.now }
{
    let joined = join(automaton, contexts.left, contexts.right, text, work)?;
    let length = joined.length;
    Ok(Finding {
        states: automaton.states() as usize,
        memory: automaton.memory() as usize,
        left: contexts.left.len(),
        right: contexts.right.len(),
        overlap: joined.overlap,
        filled: joined.filled,
        text: &text[0..length],
    })
}

// Judges a trace line: its contexts, the run limit, the pair, and then the join.
pub fn settle<'a, P: Automaton + Drop>(
    automaton: P,
    limit: Option<u16>,
    content: &[u8],
    letters: &mut [P::Kind],
    text: &'a mut [P::Kind],
    work: &mut [u16],
) -> Result<Finding<'a, P::Kind>, Fault>
where
    P::Kind: Printable,
    ensures { said result ≡ settled P.Kind.Letter.alphabet (reading P.Kind.Letter.alphabet P.Kind.Printable.parsed) (length letters.old) (length text.old) (length work.old) (P.model automaton) limit content.now }
{
    let contexts = read_contexts(content, letters)?;
    match Limited::new(automaton, limit)? {
        Limited::Alone(automaton) => join_by(&automaton, contexts, text, work),
        Limited::Both(pair) => join_by(&pair, contexts, text, work),
    }
}
