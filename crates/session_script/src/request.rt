//! What a line of a script asks for.

use std::alloc::{AllocError, Global};
use std::marker::Model;

/// Bytes of a script, a word or a text, which contracts see as a list.
#[derive(Drop)]
pub struct ScriptText {
    bytes: Vec<u8>,
}

impl Model for ScriptText {
    ghost use Rattle.std.specs.Prelude.{List, ℕ};

    ghost Value = { List ℕ };

    ghost view = { λ t. t.bytes.items };
}

impl ScriptText {
    ghost use Rattle.std.specs.Prelude.{◌≡◌, IfOk};

    /// The text with these bytes.
    pub fn new(bytes: Vec<u8>) -> ScriptText
        ensures { result ≡ bytes.items }
    {
        ScriptText { bytes }
    }

    /// The bytes.
    pub fn as_bytes(&self) -> &[u8]
        ensures { result.now ≡ self.now }
    {
        &self.bytes
    }

    /// The bytes, without the text round them.
    pub fn into_bytes(self) -> Vec<u8>
        ensures { result.items ≡ self }
    {
        self.bytes
    }

    /// A copy of the text. Errors: out of memory.
    pub fn copied(&self, alloc: Global) -> Result<ScriptText, AllocError>
        ensures { IfOk result (λ t. t ≡ self.now) }
    {
        Ok(ScriptText {
            bytes: Vec::from_slice(alloc, &self.bytes)?,
        })
    }
}

/// Names of models, which contracts see as a list.
#[derive(Drop)]
pub struct Names {
    names: Vec<ScriptText>,
}

impl Model for Names {
    ghost use Rattle.std.specs.Prelude.{List, ℕ};

    ghost Value = { List (List ℕ) };

    ghost view = { λ n. n.names.items };
}

impl Names {
    ghost use Rattle.std.specs.Prelude.{◌≡◌, IfOk};

    /// These names. Errors: out of memory.
    pub fn copied_from(alloc: Global, words: &[ScriptText]) -> Result<Names, AllocError>
        ensures { IfOk result (λ n. n ≡ words.now) }
    {
        let mut names = Vec::new(alloc);
        for word in words {
            names.push(word.copied(alloc)?)?;
        }
        Ok(Names { names })
    }

    /// The names, in their order.
    pub fn as_slice(&self) -> &[ScriptText]
        ensures { result.now ≡ self.now }
    {
        &self.names
    }
}

/// What a line asks for: an edit of the texts, or a question. Tests and models go by their names,
/// threads and items by their numbers. The text of an edit stands in the lines after it.
#[derive(Drop)]
pub enum Request {
    /// `test`, with a text: the test is put.
    PutTest,
    /// `model M`, with a text: the model is put.
    PutModel {
        model: ScriptText,
    },
    /// `init T`, with a text: the test's initial values.
    SetInit {
        test: ScriptText,
    },
    /// `thread T K`, with a text: the test's thread of that number.
    SetThread {
        test: ScriptText,
        thread: u64,
    },
    /// `cond T`, with a text: the test's condition.
    SetCondition {
        test: ScriptText,
    },
    /// `locations T`, with a text: the test's list of locations.
    SetLocations {
        test: ScriptText,
    },
    /// `item M N`, with a text: the model's item of that number becomes this one.
    SetItem {
        model: ScriptText,
        item: u64,
    },
    /// `insert M N`, with a text: a new item before that one, or at the end where N is 0.
    InsertItem {
        model: ScriptText,
        before: u64,
    },
    /// `remove M N`: the model's item of that number goes.
    RemoveItem {
        model: ScriptText,
        item: u64,
    },
    /// `drop test T`: the test goes.
    DropTest {
        test: ScriptText,
    },
    /// `drop model M`: the model goes.
    DropModel {
        model: ScriptText,
    },
    /// `items M`: the items of the model with their numbers.
    Items {
        model: ScriptText,
    },
    /// `show T M`: the log of the test under the model.
    Show {
        test: ScriptText,
        model: ScriptText,
    },
    /// `counts T M`: the counted states of the test under the model.
    Counts {
        test: ScriptText,
        model: ScriptText,
    },
    /// `table M ..`: all tests under these models.
    Table {
        models: Names,
    },
    /// `diff M M`: where the two models tell tests apart.
    Difference {
        first: ScriptText,
        second: ScriptText,
    },
}

impl Request {
    ghost use Rattle.std.specs.Prelude.{◌≡◌};
    ghost use Rattle.session_script.specs.Requests.{has_text};

    /// Whether a text follows.
    pub fn has_text(&self) -> bool
        ensures { result ≡ has_text self.now }
    {
        match self {
            Request::PutTest => true,
            Request::PutModel { model: _ } => true,
            Request::SetInit { test: _ } => true,
            Request::SetThread { test: _, thread: _ } => true,
            Request::SetCondition { test: _ } => true,
            Request::SetLocations { test: _ } => true,
            Request::SetItem { model: _, item: _ } => true,
            Request::InsertItem {
                model: _,
                before: _,
            } => true,
            _ => false,
        }
    }
}
