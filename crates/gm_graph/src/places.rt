//! Lists by the places of files, which hold nothing yet for the last ones.

ghost use Rattle.std.specs.Prelude.{◌≡◌, ◌≢◌, ℕ, OnOk, slice_index_or};

use std::alloc::AllocError;

/// Puts an item at a place. Until then there was `none` at the places past the end.
pub(crate) fn put_at<T: Copy>(
    items: &mut Vec<T>,
    place: u32,
    none: T,
    item: T,
) -> Result<(), AllocError>
    ensures put { OnOk result (slice_index_or items.new.items place none ≡ item) }
    ensures others { OnOk result ((p : ℕ) → p ≢ place
        → slice_index_or items.new.items p none ≡ slice_index_or items.old.items p none) }
{
    let place = place as usize;
    'room: while items.len() <= place {
        items.push(none)?;
    }
    items[place] = item;
    Ok(())
}
