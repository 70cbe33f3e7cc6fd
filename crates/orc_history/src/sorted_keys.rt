//! Keys in rising order, each once.
ghost use Rattle.std.specs.Prelude.{◌≡◌, ◌<◌, ◌≤◌, length, not};
ghost use Rattle.std.specs.List.Sorted.{IsPermutation, IsStrictlyIncreasing};
ghost use Rattle.std.specs.VecDeque.{deque_capacity};
ghost use Rattle.orc_history.specs.SetHistory.{has, with_key, without_key};

use std::collections::VecDeque;

// Answers whether the key is one of these.
pub(crate) fn has_key(keys: &VecDeque<u64>, key: u64) -> bool
    requires { IsStrictlyIncreasing keys.now.items }
    ensures { result ≡ has key keys.now.items }
{
    keys.binary_search(&key).is_ok()
}

// Adds the key at its place, and answers whether it was absent. There is memory for one more.
pub(crate) fn add_key(keys: &mut VecDeque<u64>, key: u64) -> bool
    requires rising { IsStrictlyIncreasing keys.old.items }
    requires reserved { length keys.old.items < deque_capacity keys.old }
    ensures answer { result ≡ not (has key keys.old.items) }
    ensures keys { IsPermutation (with_key key result keys.old.items) keys.new.items }
    ensures rising { IsStrictlyIncreasing keys.new.items }
    ensures capacity { deque_capacity keys.old ≤ deque_capacity keys.new }
{
    let Err(place) = keys.binary_search(&key) else {
        return false;
    };
    let Ok(()) = keys.insert(place, key) else {
        unreachable!();
    };
    true
}

// Takes the key out, and answers whether it was present.
pub(crate) fn take_key(keys: &mut VecDeque<u64>, key: u64) -> bool
    requires { IsStrictlyIncreasing keys.old.items }
    ensures answer { result ≡ has key keys.old.items }
    ensures keys { keys.new.items ≡ without_key key result keys.old.items }
    ensures rising { IsStrictlyIncreasing keys.new.items }
    ensures capacity { deque_capacity keys.new ≡ deque_capacity keys.old }
{
    let Ok(place) = keys.binary_search(&key) else {
        return false;
    };
    keys.remove(place);
    true
}
