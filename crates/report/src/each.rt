//! The texts of the items of a list, one after another.
ghost use Rattle.std.specs.Prelude.{◌≡◌, ◌++◌, ℕ, List as Seq, OnOk};
ghost use Rattle.report.specs.EachText.{each};

use field_core::{List, NoMemory};

/// What appends the text of an item of a list.
pub(crate) trait Printer<T> {
    ghost shown: { Self → ℕ → T → Seq ℕ };

    /// Appends the text of the item at a place, counted from 0.
    fn put(&self, text: &mut List<u8>, place: usize, item: &T) -> Result<(), NoMemory>
        ensures { OnOk result (text.new ≡ text.old ++ shown self.now place item.now) };
}

/// Appends the texts of the items.
pub(crate) fn put_each<P: Printer<T>, T>(
    text: &mut List<u8>,
    by: &P,
    items: &[T],
) -> Result<(), NoMemory>
    ensures { OnOk result (text.new ≡ text.old ++ each (P.shown by.now) 0 items.now) }
{
    for (place, item) in items.iter().enumerate() {
        by.put(text, place, item)?;
    }
    Ok(())
}
