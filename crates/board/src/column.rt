//! The models of a board.

ghost use Rattle.std.specs.Prelude.{◌≡◌};
ghost use Rattle.std.specs.Arc.{arc_value};

use std::marker::Model;
use std::sync::Arc;
use text_values::Name;

/// A model: its name, and its items as the bench prints them.
#[derive(Drop)]
pub(crate) struct Column {
    name: Arc<Name>,
    items: Arc<Vec<u8>>,
}

impl Model for Column {
    ghost use Rattle.std.specs.Arc.{arc_value};
    ghost use Rattle.board.specs.Contents.{ColumnContent};

    ghost Value = { ColumnContent };

    ghost view = { λ c. record { name = arc_value c.name; items = (arc_value c.items).items } };
}

impl Column {
    /// A model of this name with these items.
    pub(crate) fn new(name: Arc<Name>, items: Arc<Vec<u8>>) -> Column
        ensures { result ≡ record { name = arc_value name; items = (arc_value items).items } }
    {
        Column { name, items }
    }

    /// The bytes of its name.
    pub(crate) fn name(&self) -> &[u8]
        ensures { result.now ≡ self.now.name }
    {
        self.name.as_bytes()
    }

    /// Its items.
    pub(crate) fn items(&self) -> &[u8]
        ensures { result.now ≡ self.now.items }
    {
        &self.items
    }
}
