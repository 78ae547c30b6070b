//! Vectors that have room, so that they take no memory.
//! Called by `answers` and `hits`; any append serves that takes no memory where there is room.
ghost use Rattle.std.specs.Prelude.{◌≡◌, ◌+◌, ◌<◌, [], ◌∷◌, ◌++◌, vec_len, vec_capacity};

/// Appends an item, for which there is room.
pub fn put<T: Drop>(list: &mut Vec<T>, item: T)
    requires { vec_len list.old < vec_capacity list.old }
    ensures items { list.new.items ≡ list.old.items ++ item ∷ [] }
    ensures len { vec_len list.new ≡ vec_len list.old + 1 }
    ensures room { vec_capacity list.new ≡ vec_capacity list.old }
{
    list.push_reserved(item);
}
