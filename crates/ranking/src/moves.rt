//! Classes come to a place of a list, leave it, and go from one to another. Only those that have to move are moved.
ghost use Rattle.std.specs.Prelude.{◌≡◌, ◌≤◌, ◌<◌, ◌++◌, ◌∷◌, [], length};
ghost use Rattle.std.specs.Vec.{vec_len, vec_capacity};
ghost use Rattle.std.specs.List.{insert, remove};

/// Puts a class in at a place.
pub fn put_at(order: &mut Vec<u32>, place: usize, class: u32)
    requires place { place ≤ length order.old.items }
    requires room { vec_len order.old < vec_capacity order.old }
    ensures items { order.new.items ≡ insert order.old.items place class }
    ensures capacity { vec_capacity order.old ≤ vec_capacity order.new }
{
    let _ = order.insert(place, class);
}

/// Puts a class in behind all others.
#[inline(always)]
pub fn put_last(order: &mut Vec<u32>, class: u32)
    requires { vec_len order.old < vec_capacity order.old }
    ensures items { order.new.items ≡ order.old.items ++ class ∷ [] }
    ensures capacity { vec_capacity order.old ≤ vec_capacity order.new }
{
    let _ = order.push(class);
}

/// Takes out what stands at a place.
pub fn take_at(order: &mut Vec<u32>, place: usize)
    requires { place < length order.old.items }
    ensures items { order.new.items ≡ remove order.old.items place }
    ensures capacity { vec_capacity order.new ≡ vec_capacity order.old }
{
    let _ = order.remove(place);
}

/// Puts a class at a place, and takes out what stands at another.
pub fn move_to(order: &mut Vec<u32>, from: usize, to: usize, class: u32)
    requires from { from < length order.old.items }
    requires to { to < length order.old.items }
    ensures items { order.new.items ≡ insert (remove order.old.items from) to class }
    ensures capacity { vec_capacity order.new ≡ vec_capacity order.old }
{
    if from < to {
        order.copy_within(from + 1..to + 1, from);
    } else if to < from {
        order.copy_within(to..from, to + 1);
    }
    order[to] = class;
}
