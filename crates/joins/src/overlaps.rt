// The overlap of two contexts.
ghost use Rattle.std.specs.Prelude.{◌≡◌, ℕ, ◌≤◌, length};
ghost use Rattle.joinlaw.specs.Bridges.{same as same_of, overlap as overlap_of};

use automata::{Automaton, walk};
use letters::Letter;

// Whether two strings are the same, letter by letter. Letters are compared by number, since they need no `Eq`.
fn same<K: Letter>(a: &[K], b: &[K]) -> bool
    ensures { result ≡ same_of K.alphabet.number a.now b.now }
{
    a.len() == b.len() && a.iter().zip(b).all(|(x, y)| x.number() == y.number())
}

// The largest overlap of at most `most` letters after which the rest of `right` can be walked on from `state`, the
// state after `left`.
pub(crate) fn overlap<S: Automaton>(
    automaton: &S,
    state: u16,
    left: &[S::Kind],
    right: &[S::Kind],
    most: usize,
) -> Option<usize>
    requires { (most ≤ length left.now) × (most ≤ length right.now) }
    ensures { result ≡ overlap_of S.Kind.Letter.alphabet (S.model automaton.now) state left.now right.now most }
{
    for shared in (1..=most).rev() {
        if same(&left[left.len() - shared..], &right[0..shared])
            && walk(automaton, state, &right[shared..]).is_some()
        {
            return Some(shared);
        }
    }
    None
}
