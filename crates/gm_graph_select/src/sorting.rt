//! Sorting with duplicates removed.
//!
//! The graph's lists are stated as strictly ascending, so that equal graphs have equal lists.

ghost use Rattle.std.specs.Prelude.{◌≡◌, ◌≤◌, false, length, take, true};
ghost use Rattle.std.specs.List.Sorted.{IsNonDecreasing};
ghost use Rattle.std.specs.Ordering.{nat_cmp};
ghost use Rattle.gm_name.specs.ModuleVersion.{pair_cmp};
ghost use Rattle.gm_graph_select.specs.Order.{TiesAreEqual, HaveSame, IsAscending};

use gm_name::ModVer;

/// Whether each item is less than the next. It takes no memory, and one comparison per item.
pub fn is_ascending<T: Ord>(items: &[T]) -> bool
    ensures yes { result ≡ true → IsAscending T.cmp items.now }
    ensures no { result ≡ false → IsAscending T.cmp items.now → ⊥ }
{
    items.is_sorted_by(|a, b| a.cmp(b).is_lt())
}

/// The same items in strictly ascending order, without duplicates. Items that compare as equal must be the same. It
/// takes no memory, and n log n comparisons, or only n if the items are in that order already.
pub fn sorted<T: Ord + Drop>(mut items: Vec<T>) -> Vec<T>
    requires { TiesAreEqual T.cmp items.items }
    ensures ascending { IsAscending T.cmp result.items }
    ensures members { HaveSame items.items result.items }
    ensures fewer { length result.items ≤ length items.items }
{
    if is_ascending(&items) {
        return items;
    }
    items.sort_unstable();
    items.dedup();
    items
}

/// Moves numbers in ascending order to the front, each once, and returns how many there are.
fn move_distinct(numbers: &mut [u32]) -> usize
    requires { IsNonDecreasing numbers.old }
    ensures count { result ≤ length numbers.old }
    ensures ascending { IsAscending nat_cmp (take result numbers.new) }
    ensures members { HaveSame numbers.old (take result numbers.new) }
{
    let mut count = 0;
    for place in 0..numbers.len() {
        let number = numbers[place];
        if count == 0 || numbers[count - 1] != number {
            numbers[count] = number;
            count += 1;
        }
    }
    count
}

/// Puts numbers in strictly ascending order at the front, without duplicates, and returns how many there are. It takes
/// no memory, and n log n comparisons, or only n if the numbers are in that order already.
pub(crate) fn put_in_order(numbers: &mut [u32]) -> usize
    ensures count { result ≤ length numbers.old }
    ensures ascending { IsAscending nat_cmp (take result numbers.new) }
    ensures members { HaveSame numbers.old (take result numbers.new) }
{
    if is_ascending(numbers) {
        return numbers.len();
    }
    numbers.sort_unstable();
    move_distinct(numbers)
}

/// The same vertices in strictly ascending order, without duplicates. It takes no memory, and n log n comparisons, or
/// only n if the vertices are in that order already.
pub fn sorted_vertices(vertices: Vec<ModVer>) -> Vec<ModVer>
    ensures ascending { IsAscending pair_cmp result.items }
    ensures members { HaveSame vertices.items result.items }
{
    sorted(vertices)
}
