// Reading and writing by a number that may lie outside a table.
ghost use Rattle.std.specs.Prelude.{◌≡◌, ◌≤◌, length, take, drop, slice_index_or, slice_set};

// The item at a place, or the default where the table has none.
pub fn item_or<T: Copy>(items: &[T], at: u8, default: T) -> T
    ensures { result ≡ slice_index_or items.now at default }
{
    items.get(usize::from(at)).copied().unwrap_or(default)
}

// Writes an item; where the table has no such place, nothing.
pub fn set_item<T: Copy>(items: &mut [T], at: u8, x: T)
    ensures { items.new ≡ slice_set items.old at x }
{
    // `get_mut` does not say what the slice ends as
    let at = usize::from(at);
    if at < items.len() {
        items[at] = x;
    }
}

// `size` items from `first` on, as far as there are any.
pub fn part_of<T>(items: &[T], first: usize, size: u8) -> &[T]
    ensures value { result.now ≡ take size (drop first items.now) }
    ensures few { length result.now ≤ size }
{
    let rest = &items[first.min(items.len())..];
    &rest[..rest.len().min(usize::from(size))]
}
