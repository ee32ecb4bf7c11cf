// The finished list: what it is made of, and what always holds of it.
ghost use Rattle.std.specs.Prelude.{◌≡◌, ◌*◌, ◌<◌, ◌≤◌, length, ⊤};
ghost use Rattle.listlaw.specs.Table.{Kept};
ghost use Rattle.lists.specs.Finished.{stop_at, goes_to};

use crate::record::Record;
use std::alloc::AllocError;
use std::marker::PhantomData;

// It stops a string exactly when a pattern that it took occurs in the string. It can be copied, and so serve many users.
#[derive_where(Copy)]
pub struct Listed<'a, L> {
    // lent tables, since nothing here may allocate
    pub(crate) records: &'a [Record],
    pub(crate) words: &'a [u16],
    // states, letters that the words have a place for, patterns taken, and the memory
    pub(crate) used: u16,
    pub(crate) columns: u8,
    pub(crate) taken: usize,
    pub(crate) memory: u16,
    pub(crate) kind: PhantomData<L>,
    ghost few: { used ≤ 512 },
    ghost narrow: { columns ≤ 32 },
    // a list without patterns reads neither table, so they may be too short
    ghost deep: { (0 < taken → 512 ≤ length records.now) },
    ghost wide: { (0 < taken → columns * 512 ≤ length words.now) },
    // there are patterns whose automaton this is, which shows both laws
    ghost built: { Kept used columns (stop_at records.now columns taken) (goes_to words.now taken) memory },
}

// By hand, since a derive is refused for a generic struct with a ghost field.
impl<'a, L> Clone for Listed<'a, L> {
    ghost is_clone = { λ x y. y ≡ x };

    ghost is_infallible = { λ _. ⊤ };

    fn clone(&self) -> Result<Listed<'a, L>, AllocError> {
        Ok(*self)
    }
}
