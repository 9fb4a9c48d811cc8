//! Removing the items of a list that have a mark.
//!
//! gm_file_edit removes lines of a file with it, and by the same marks the keys that it has of them. It is a crate of
//! its own so that its edit that must fail proves no operation.
#![tactic(auto)]

ghost use Rattle.std.specs.Prelude.{◌≡◌, ◌+◌, ◌++◌, ◌<◌, ◌≤◌, length, take, drop};
ghost use Rattle.gm_marked_items.specs.Unmarked.{unmarked};

/// Keeps an item, directly after those that are kept so far.
fn keep<T: Drop>(list: &mut Vec<T>, kept: usize, n: usize)
    requires ordered { kept ≤ n }
    requires in_range { n < length list.old.items }
    ensures front { take (kept + 1) list.new.items ≡ take kept list.old.items ++ take 1 (drop n list.old.items) }
    ensures rest { drop (n + 1) list.new.items ≡ drop (n + 1) list.old.items }
    ensures len { length list.new.items ≡ length list.old.items }
{
    if kept < n {
        list.swap(kept, n);
    }
}

/// Keeps the items that have no mark, in their order. Takes no memory.
pub fn keep_unmarked<T: Drop>(list: &mut Vec<T>, marks: &[bool])
    requires { length marks.now ≡ length list.old.items }
    ensures { list.new.items ≡ unmarked marks.now list.old.items }
{
    let mut count = 0;
    for (n, goes) in marks.iter().enumerate() {
        if !*goes {
            keep(list, count, n);
            count += 1;
        }
    }
    list.truncate(count);
}
