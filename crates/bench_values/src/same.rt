//! When two parts of texts say the same.

ghost use Rattle.std.specs.Prelude.{◌≡◌, ◌↔◌, IsTrue, map};
ghost use Rattle.text_values.specs.TestValue.{thread_steps};

use text_equality::are_same_steps;
use text_values::{Name, Thread, is_same_label};

/// Whether the names of flags are the same, in order.
pub fn same_flags(these: &[Option<Name>], those: &[Option<Name>]) -> bool
    ensures { IsTrue result ↔ (these.now ≡ those.now) }
{
    if these.len() != those.len() {
        return false;
    }
    for index in 0..these.len() {
        if !is_same_label(&these[index], &those[index]) {
            return false;
        }
    }
    true
}

fn same_thread(this: &Thread, that: &Thread) -> bool
    ensures { IsTrue result ↔ (thread_steps this.now ≡ thread_steps that.now) }
{
    are_same_steps(&this.steps, &that.steps)
}

/// Whether the threads have the same steps, in order.
pub fn same_threads(these: &[Thread], those: &[Thread]) -> bool
    ensures { IsTrue result ↔ (map thread_steps these.now ≡ map thread_steps those.now) }
{
    if these.len() != those.len() {
        return false;
    }
    for index in 0..these.len() {
        if !same_thread(&these[index], &those[index]) {
            return false;
        }
    }
    true
}
