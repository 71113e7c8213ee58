//! What is made for an edit.

ghost use Rattle.std.specs.Prelude.{◌≡◌, ◌≤◌, ◌||◌, not, true, vec_len};
ghost use Rattle.bench_nodes.specs.Guesses.{are_items_guessed};
ghost use Rattle.bench_nodes.specs.Places.{are_apart, lists_if, lists_in};

use bench_nodes::{ModelRow, Slot, SlotPlaces, TestRow};
use bench_parts::ItemLists;
use binding_graph::ModelFault;
use text_values::Name;

/// The parts of all models after an edit, without its number.
#[derive(Drop)]
pub struct ModelParts {
    /// The rows of the models.
    pub rows: Vec<ModelRow>,
    /// The fault of each model, if it has one.
    pub faults: Vec<Option<ModelFault>>,
    /// The items of all models.
    pub items: ItemLists,
    /// The guesses of where these stand.
    pub item_guesses: Vec<usize>,
    /// The nodes that each test has.
    pub slots: Vec<Slot>,
    /// Where these stand.
    pub places: SlotPlaces,
    ghost few_slots: { vec_len slots ≤ 65536 },
    ghost guessed: { are_items_guessed item_guesses.items items.rows.items ≡ true },
    ghost apart: { (not places.are_listed || are_apart slots.items) ≡ true },
    ghost listed: { lists_in places.are_listed places.users.items
        ≡ lists_if places.are_listed slots.items },
}

/// What an edit changes of the parts, without its number.
#[derive(Drop)]
pub enum EditedParts {
    /// A test takes an index, which is the number of tests where it is a new one.
    PutTest {
        /// The index.
        at: usize,
        /// The row of the test.
        row: TestRow,
        /// The names of all its locations.
        locations: Vec<Name>,
    },
    /// A test goes.
    DropTest {
        /// The index of the test.
        at: usize,
    },
    /// The models change.
    Models(ModelParts),
}
