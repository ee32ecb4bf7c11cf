// A window: up to twelve letters, the latest last.
ghost use Rattle.std.specs.Prelude.{◌≡◌, ℕ, ◌+◌, ◌<◌, ◌≤◌, List, [], ◌∷◌, ◌++◌, length, take, drop, ⊤};

use std::alloc::AllocError;

// The first `held` letters are the window; the others are never read. It is an array with its length beside it since
// a window is `Copy` and there is no heap.
#[derive(Copy)]
pub struct Window<L> {
    pub(crate) letters: [L; 12],
    pub(crate) held: usize,
    ghost whole: { length letters ≡ 12 },
    ghost fits: { held ≤ 12 },
}

// A derive of `Clone` is refused for a generic struct with a ghost field.
impl<L: Copy> Clone for Window<L> {
    ghost is_clone = { λ x y. y ≡ x };

    ghost is_infallible = { λ _. ⊤ };

    fn clone(&self) -> Result<Window<L>, AllocError> {
        Ok(*self)
    }
}

impl<L: Copy> Window<L> {
    // The empty window; any letter may fill the array.
    pub fn empty(blank: L) -> Window<L>
        ensures { (take result.held result.letters ≡ []) × (result.held ≡ 0) }
    {
        Window {
            letters: [blank; 12],
            held: 0,
        }
    }

    // The letters of the window.
    pub fn letters(&self) -> &[L]
        ensures { result.now ≡ take self.now.held self.now.letters }
    {
        let all = &self.letters[..];
        &all[0..self.held]
    }

    // One letter more.
    pub(crate) fn push(&mut self, letter: L)
        requires { self.old.held < 12 }
        ensures letters { take self.new.held self.new.letters ≡ take self.old.held self.old.letters ++ letter ∷ [] }
        ensures held { self.new.held ≡ self.old.held + 1 }
    {
        self.letters[self.held] = letter;
        self.held += 1;
    }

    // One letter more, and the first one goes.
    pub(crate) fn shift(&mut self, letter: L)
        requires { 1 ≤ self.old.held }
        ensures letters { take self.new.held self.new.letters ≡ drop 1 (take self.old.held self.old.letters) ++ letter ∷ [] }
        ensures held { self.new.held ≡ self.old.held }
    {
        self.letters.copy_within(1..self.held, 0);
        self.letters[self.held - 1] = letter;
    }

    // No letters.
    pub fn clear(&mut self)
        ensures { (take self.new.held self.new.letters ≡ []) × (self.new.held ≡ 0) }
    {
        self.held = 0;
    }
}
