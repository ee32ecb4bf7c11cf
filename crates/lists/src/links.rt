// The failure links, the end marks that are inherited over them, and where each letter leads: what a list is finished with.
// The words of the letter a stand from 512 a on, one for each state.
ghost use Rattle.std.specs.Prelude.{◌≡◌, ℕ, ◌+◌, ◌*◌, ◌<◌, ◌≤◌, List, [], length, drop, ◌≢◌, slice_index, slice_index_or};
ghost use Rattle.listlaw.specs.Patterns.{Word, longest};
ghost use Rattle.lists.specs.Names.{names, Under};
ghost use Rattle.lists.specs.Lists.{columns as columns_of};
ghost use Rattle.lists.specs.Links.{Others, Planted};

use crate::builder::STATES;
use crate::tree::Tree;

// A tree, and the words that say where each letter leads from its states.
#[derive(Drop)]
pub(crate) struct Links<'a> {
    pub(crate) tree: Tree<'a>,
    // lent words of 16 bits, since nothing here may allocate
    pub(crate) words: &'a mut [u16],
    ghost room: { 512 ≤ length tree.records.now },
    ghost small: { Under (columns_of words.now) tree.records.now tree.used },
}

// How many letters the words have room for, 32 at most.
pub(crate) fn columns(words: &[u16]) -> usize
    ensures { result ≡ columns_of words.now }
{
    (words.len() / STATES).min(32)
}

// Lets every letter of q lead where it leads from the state `link`.
// By index: after a loop over chunks of the words, a proof would know nothing of what they hold.
fn inherit(words: &mut [u16], q: usize, link: usize)
    requires { (q < 512) × ((link < 512) × ((link ≢ q))) }
    ensures row { (a : ℕ) → a < columns_of words.old → slice_index words.new (a * 512 + q) ≡ slice_index words.old (a * 512 + link) }
    ensures others { Others words.old words.new q }
{
    for a in 0..columns(words) {
        words[a * STATES + q] = words[a * STATES + link];
    }
}

// Lets every letter of the first state lead to itself. By index, as above.
fn reset(words: &mut [u16])
    ensures { (a : ℕ) → a < columns_of words.old → slice_index words.new (a * 512 + 0) ≡ 0 }
{
    for a in 0..columns(words) {
        words[a * STATES] = 0;
    }
}

// Lets the letters by which other states hang under q lead to those.
fn plant(tree: &Tree, words: &mut [u16], q: usize)
    requires small { Under (columns_of words.old) tree.now.records.now tree.now.used }
    requires room { (512 ≤ length tree.now.records.now) × (q < 512) }
    ensures row { (a : ℕ) → a < columns_of words.old → Planted tree.now.records.now words.old words.new q tree.now.used a }
    ensures others { Others words.old words.new q }
{
    let states = &tree.records[1..tree.used];
    for (j, record) in states.iter().enumerate() {
        if record.parent as usize == q {
            words[record.letter as usize * STATES + q] = j as u16 + 1;
        }
    }
}

// `Linked` says how far the linking has come; it differs from call to call, so it is no fact of the type.
impl Links<'_> {
    ghost use Rattle.lists.specs.Linked.{word, Linked, Ended, Kept};

    // The failure link of the state q, where the shorter states are settled.
    fn link_of(&self, q: usize) -> usize
        requires linked { Linked self.now (length (word self.now q)) q }
        requires inside { (0 < q) × (q < self.now.tree.used) }
        ensures { result ≡ longest (names self.now.tree.records.now self.now.tree.used) (drop 1 (word self.now q)) }
    {
        let record = self.tree.records[q];
        let parent = record.parent as usize;
        if parent == 0 {
            return 0;
        }
        let under = self.tree.records[parent].link as usize;
        self.words[record.letter as usize * STATES + under] as usize
    }

    // Settles the state q, where those before it in length and then in number are settled.
    fn settle(&mut self, q: usize)
        requires linked { Linked self.old (length (word self.old q)) q }
        requires inside { (0 < q) × (q < self.old.tree.used) }
        ensures kept { Kept self.old self.new }
        ensures linked { Linked self.new (length (word self.old q)) (q + 1) }
        ensures ended { (ps : List Word) → Ended self.old (length (word self.old q)) q ps → Ended self.new (length (word self.old q)) (q + 1) ps }
    {
        let link = self.link_of(q);
        self.tree.tie(q, link);
        inherit(self.words, q, link);
        plant(&self.tree, self.words, q);
    }

    // Settles the states of d letters, where the shorter ones are settled. By number, since each turn changes the tree.
    fn level(&mut self, d: usize)
        requires { Linked self.old d 1 }
        ensures kept { Kept self.old self.new }
        ensures linked { Linked self.new (d + 1) 1 }
        ensures ended { (ps : List Word) → Ended self.old d 1 ps → Ended self.new (d + 1) 1 ps }
    {
        for q in 1..self.tree.used {
            if self.tree.records[q].length as usize == d {
                self.settle(q);
            }
        }
    }

    // Settles every state, shorter ones first; `above` is above the length of each. By number, since lengths lie in no slice.
    pub(crate) fn complete(&mut self, above: usize)
        requires { 1 ≤ above }
        ensures kept { Kept self.old self.new }
        ensures linked { Linked self.new above 1 }
        ensures ended { (ps : List Word) → Ended self.old 1 1 ps → Ended self.new above 1 ps }
    {
        reset(self.words);
        plant(&self.tree, self.words, 0);
        for d in 1..above {
            self.level(d);
        }
    }
}
