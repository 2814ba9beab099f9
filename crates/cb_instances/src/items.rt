//! Lists whose items `==` tells apart.
ghost use Rattle.std.specs.Prelude.{◌≡◌, vec_capacity};
ghost use Rattle.std.specs.Bool.{Decides};
ghost use Rattle.std.specs.List.{position};
ghost use Rattle.cb_instances.specs.Items.{Loses};

// The first position of the item.
fn place_of<T: Copy + PartialEq>(list: &[T], item: T) -> Option<usize>
    ensures { result ≡ position (λ other. T.eq other item) list.now }
{
    list.iter().position(|other| *other == item)
}

/// Takes the item out of the list; the last one comes into its place.
pub(crate) fn take_out<T: Copy + PartialEq>(list: &mut Vec<T>, item: T)
    requires exact { (a b : T) → Decides (T.eq a b) (a ≡ b) }
    ensures loses { Loses item list.old.items list.new.items }
    ensures capacity { vec_capacity list.new ≡ vec_capacity list.old }
{
    if let Some(place) = place_of(list, item) {
        list.swap_remove(place);
    }
}
