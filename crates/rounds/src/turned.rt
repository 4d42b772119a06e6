//! Lists that are turned round, so that their elements are taken in order from the end.
ghost use Rattle.std.specs.Prelude.{◌≡◌, ◌+◌, ◌<◌, ◌∷◌, reverse, vec_capacity, vec_len};

/// Turns a list round. Takes no memory.
pub(crate) fn turn_round<T>(list: &mut Vec<T>)
    ensures turned { reverse list.new.items ≡ list.old.items }
    ensures len { vec_len list.new ≡ vec_len list.old }
    ensures capacity { vec_capacity list.new ≡ vec_capacity list.old }
{
    list.reverse();
}

/// The next element of a list that was turned round: its last. The list keeps its room.
pub(crate) fn take_next<T>(list: &mut Vec<T>) -> T
    requires { 0 < vec_len list.old }
    ensures next { reverse list.old.items ≡ result ∷ reverse list.new.items }
    ensures len { vec_len list.old ≡ vec_len list.new + 1 }
    ensures capacity { vec_capacity list.new ≡ vec_capacity list.old }
{
    list.pop().unwrap()
}
