//! OIL: grammar. What stands in the braces of an item.

use crate::items::Item;

/// What stands in the braces of an item: the items behind it that lie deeper, up to the first that
/// doesn't.
pub(crate) fn inside<'t, 'a>(items: &'t [Item<'a>], number: usize, depth: usize) -> &'t [Item<'a>] {
    let behind = number.saturating_add(1).min(items.len());
    let (_, rest) = items.split_at(behind);
    for (count, item) in rest.iter().enumerate() {
        if item.depth <= depth {
            let (front, _) = rest.split_at(count.min(rest.len()));
            return front;
        }
    }
    rest
}
