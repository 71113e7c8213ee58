//! A file as looks at it find it.

use std::fs;
use std::rt::Files;
use std::time::SystemTime;

// So many looks in a row that find no text are too many for a save under way.
const MOST_AWAY: u32 = 10;

/// What a look at a file finds: when it was changed last, and its size.
#[derive(Clone, Copy, PartialEq, Eq)]
pub(crate) struct Look {
    changed: Option<SystemTime>,
    size: u64,
}

// Looks at the file of this path. None where it is not there.
fn look_at<R: Files>(rt: &R, path: &str) -> Option<Look> {
    match fs::metadata(rt, path) {
        Ok(found) => Some(Look {
            changed: found.modified().ok(),
            size: found.len(),
        }),
        Err(_) => None,
    }
}

// Whether a look finds a text.
fn has_text(look: Option<Look>) -> bool {
    match look {
        Some(look) => look.size > 0,
        None => false,
    }
}

/// A file, what a look at it found when it was named last, what the last look found, and how many
/// looks in a row found no text, no more than too many.
#[derive(Clone, Copy)]
pub(crate) struct PolledFile<'a> {
    path: &'a str,
    named: Option<Look>,
    last: Option<Look>,
    away: u32,
}

impl<'a> PolledFile<'a> {
    /// The file of this path, as it is now.
    pub(crate) fn new<R: Files>(rt: &R, path: &'a str) -> PolledFile<'a> {
        let look = look_at(rt, path);
        PolledFile {
            path,
            named: look,
            last: look,
            away: 0,
        }
    }

    /// Its path.
    pub(crate) fn path(&self) -> &'a str {
        self.path
    }

    /// Whether it is another than when it was named last.
    pub(crate) fn is_changing(&self) -> bool {
        self.last != self.named
    }

    /// It is named as the last look found it.
    pub(crate) fn name(&mut self) {
        self.named = self.last;
        self.away = 0;
    }

    /// Looks at it, and takes it as named.
    pub(crate) fn name_now<R: Files>(&mut self, rt: &R) {
        self.last = look_at(rt, self.path);
        self.name();
    }

    /// Looks at it. Whether it is due to be named: it is another than when it was named last, and
    /// either it has a text and two looks in a row found the same, or it had none for long.
    pub(crate) fn is_due<R: Files>(&mut self, rt: &R) -> bool {
        let look = look_at(rt, self.path);
        let is_still = look == self.last;
        self.last = look;
        if !self.is_changing() {
            self.away = 0;
            return false;
        }
        if has_text(look) {
            self.away = 0;
            return is_still;
        }
        self.away = self.away.saturating_add(1).min(MOST_AWAY);
        self.away == MOST_AWAY
    }
}
