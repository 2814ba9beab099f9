//! The order in which nodes are searched from.
ghost use Rattle.std.specs.Prelude.{◌≡◌, vec_capacity};
ghost use Rattle.std.specs.List.Sorted.{IsPermutation};

/// Exchanges each two items whose positions are each other's bits reversed, where both are there.
pub(crate) fn scatter<T: Copy>(items: &mut Vec<T>)
    ensures items { IsPermutation items.old.items items.new.items }
    ensures capacity { vec_capacity items.new ≡ vec_capacity items.old }
{
    let idle = items.len().saturating_sub(1).leading_zeros();
    for place in 0..items.len() {
        trade(items, place, mirrored(place, idle));
    }
}

// Lets two items change places, if both places are there.
fn trade<T: Copy>(items: &mut Vec<T>, place: usize, other: usize)
    ensures items { IsPermutation items.old.items items.new.items }
    ensures capacity { vec_capacity items.new ≡ vec_capacity items.old }
{
    if place < other && other < items.len() {
        items.swap(place, other);
    }
}

// The position with its bits in reverse order, `idle` high bits left out, which no position has.
fn mirrored(place: usize, idle: u32) -> usize {
    place.reverse_bits() >> idle.min(63)
}
