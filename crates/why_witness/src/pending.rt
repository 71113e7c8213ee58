//! The relations that are still to come, where the steps of an expression are read from the last to
//! the first. The next is the last of the list; it says of each whether it is of the sort that is
//! looked for.

ghost use Rattle.std.specs.Prelude.{◌≡◌, OnOk, reverse};
ghost use Rattle.why_witness.specs.Pending.{next_inside, next_twice, without_next};

use std::alloc::AllocError;

/// The next has come.
pub fn drop_next(pending: &mut Vec<bool>)
    ensures { reverse pending.new.items ≡ without_next (reverse pending.old.items) }
{
    let _ = pending.pop();
}

/// Two operands come in place of the next, each of its sort. Errors: want of memory.
pub fn push_twice(pending: &mut Vec<bool>) -> Result<(), AllocError>
    ensures { OnOk result (reverse pending.new.items ≡ next_twice (reverse pending.old.items)) }
{
    if let Some(next) = pending.pop() {
        pending.push(next)?;
        pending.push(next)?;
    }
    Ok(())
}

/// An operand of another sort comes in place of the next. Errors: want of memory.
pub fn close_next(pending: &mut Vec<bool>) -> Result<(), AllocError>
    ensures { OnOk result (reverse pending.new.items ≡ next_inside (reverse pending.old.items)) }
{
    if let Some(_) = pending.pop() {
        pending.push(false)?;
    }
    Ok(())
}

/// Two operands of another sort come in place of the next. Errors: want of memory.
pub fn close_both(pending: &mut Vec<bool>) -> Result<(), AllocError>
    ensures { OnOk result (reverse pending.new.items
        ≡ next_twice (next_inside (reverse pending.old.items))) }
{
    close_next(pending)?;
    push_twice(pending)
}
