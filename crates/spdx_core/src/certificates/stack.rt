//! Vectors as stacks, which contracts see from their last item.
ghost use Rattle.std.specs.Prelude.{◌≡◌, ◌∷◌, reverse, OnOk, OnErr};
ghost use Rattle.spdx_core.specs.certificates.Stack.{first_of, behind_first};

use std::alloc::AllocError;

/// Puts an item on top. One that finds no room is dropped.
pub fn put<T: Drop>(stack: &mut Vec<T>, item: T) -> Result<(), AllocError>
    ensures ok { OnOk result (reverse stack.new.items ≡ item ∷ reverse stack.old.items) }
    ensures err { OnErr result (stack.new.items ≡ stack.old.items) }
{
    stack.push(item)?;
    Ok(())
}

/// Takes the item on top off; an empty stack gives `none` and stays as it is.
pub fn take_off<T: Drop>(stack: &mut Vec<T>, none: T) -> T
    ensures item { result ≡ first_of none (reverse stack.old.items) }
    ensures rest { reverse stack.new.items ≡ behind_first (reverse stack.old.items) }
{
    stack.pop().unwrap_or(none)
}
