//! Edits of the bench.

ghost use Rattle.std.specs.Prelude.{◌≡◌};

/// An edit of the bench: a whole replacement of a named part. Tests and models go by their names,
/// threads by their number from 0 on, items by their number on the bench.
#[derive(Debug)]
pub enum Edit {
    /// The test of this text, in the place of the one of its name, or as the last.
    PutTest {
        text: Vec<u8>,
    },
    /// The test goes.
    DropTest {
        test: Vec<u8>,
    },
    /// Its initial values become those of this block.
    SetInit {
        test: Vec<u8>,
        text: Vec<u8>,
    },
    /// Its thread of that number becomes this one.
    SetThread {
        test: Vec<u8>,
        thread: usize,
        text: Vec<u8>,
    },
    /// Its condition becomes this one.
    SetCond {
        test: Vec<u8>,
        text: Vec<u8>,
    },
    /// Its list of `locations` becomes this one.
    SetLocations {
        test: Vec<u8>,
        text: Vec<u8>,
    },
    /// The model of this name and text, in the place of the one of its name, or as the last: each
    /// item gets a number that no item had.
    PutModel {
        model: Vec<u8>,
        text: Vec<u8>,
    },
    /// The model goes.
    DropModel {
        model: Vec<u8>,
    },
    /// Its item of that number becomes this one, and keeps the number.
    SetItem {
        model: Vec<u8>,
        item: u64,
        text: Vec<u8>,
    },
    /// It gets this item before the one of that number, or as the last where `before` is 0.
    InsertItem {
        model: Vec<u8>,
        before: u64,
        text: Vec<u8>,
    },
    /// Its item of that number goes.
    RemoveItem {
        model: Vec<u8>,
        item: u64,
    },
}

impl Drop for Edit {
    fn drop(self) {
        match self {
            Edit::PutTest { text: _ } => {},
            Edit::DropTest { test: _ } => {},
            Edit::SetInit { test: _, text: _ } => {},
            Edit::SetThread {
                test: _,
                thread: _,
                text: _,
            } => {},
            Edit::SetCond { test: _, text: _ } => {},
            Edit::SetLocations { test: _, text: _ } => {},
            Edit::PutModel { model: _, text: _ } => {},
            Edit::DropModel { model: _ } => {},
            Edit::SetItem {
                model: _,
                item: _,
                text: _,
            } => {},
            Edit::InsertItem {
                model: _,
                before: _,
                text: _,
            } => {},
            Edit::RemoveItem { model: _, item: _ } => {},
        }
    }
}

impl Edit {
    ghost use Rattle.bench_texts.specs.Edits.{edit_of, is_whole};

    /// Whether it puts or drops a test or a model as a whole.
    pub fn is_whole(&self) -> bool
        ensures { result ≡ is_whole (edit_of self.now) }
    {
        match self {
            Edit::PutTest { .. } => true,
            Edit::DropTest { .. } => true,
            Edit::SetInit { .. } => false,
            Edit::SetThread { .. } => false,
            Edit::SetCond { .. } => false,
            Edit::SetLocations { .. } => false,
            Edit::PutModel { .. } => true,
            Edit::DropModel { .. } => true,
            Edit::SetItem { .. } => false,
            Edit::InsertItem { .. } => false,
            Edit::RemoveItem { .. } => false,
        }
    }
}
