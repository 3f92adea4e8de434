ghost use Rattle.std.specs.Prelude.{◌≡◌, ◌≤◌, ◌+◌, OnErr, OnOk, vec_capacity, vec_len};

use std::alloc::AllocError;

/// Makes room for so many more; where there was too little, for at least `at_once`, if there is
/// memory for it. A list that grows often is copied often, and memory that isn't written to costs
/// nothing. AllocError: there was no memory for so many more, and none was taken.
pub fn make_room<T>(list: &mut Vec<T>, more: usize, at_once: usize) -> Result<(), AllocError>
    ensures room { OnOk result (vec_len list.new + more ≤ vec_capacity list.new) }
    ensures items { list.new.items ≡ list.old.items }
    ensures no_less { vec_capacity list.old ≤ vec_capacity list.new }
    ensures same { OnErr result (vec_capacity list.new ≡ vec_capacity list.old) }
{
    if list.capacity() - list.len() >= more {
        return Ok(());
    }
    if list.reserve(more.max(at_once)).is_err() {
        list.reserve(more)?;
    }
    Ok(())
}
