ghost use Rattle.std.specs.Prelude.{◌≡◌, ◌≤◌, length, take};

// The first items, as many as there is room for.
pub(crate) fn at_most<T>(items: &[T], room: usize) -> &[T]
    ensures items { result.now ≡ take room items.now }
    ensures fits { length result.now ≤ room }
{
    items.get(..room).unwrap_or(items)
}
