// The guard over the lent words of a search.
ghost use Rattle.std.specs.Prelude.{◌≡◌, length, replicate};

// Words lent for a search; they are zero when it goes.
pub struct Marks<'a> {
    pub words: &'a mut [u16],
}

impl Drop for Marks<'_> {
    fn drop(self)
        ensures { self.exit.0.now ≡ replicate (length self.entry.words.now) 0 }
    {
        self.words.fill(0);
        let Marks { words: _ } = self;
    }
}
