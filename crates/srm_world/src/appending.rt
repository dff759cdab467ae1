//! Appending to a list with room.

ghost use Rattle.std.specs.Prelude.{◌≡◌, ◌<◌, ◌++◌, [], ◌∷◌, vec_len, vec_capacity};

/// Appends an item to a list that has room. Takes no memory.
pub fn append<T: Drop>(kept: &mut Vec<T>, one: T)
    requires { vec_len kept.old < vec_capacity kept.old }
    ensures { kept.new.items ≡ kept.old.items ++ one ∷ [] }
{
    let _ = kept.push(one);
}
