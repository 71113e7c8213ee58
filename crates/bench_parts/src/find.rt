//! Where the rows of a table stand, by number.

ghost use Rattle.std.specs.Prelude.{◌≡◌, ◌==◌, ◌≤◌, true, length, option_map};
ghost use Rattle.std.specs.List.{position_or_len};
ghost use Rattle.bench_nodes.specs.Guesses.{are_items_guessed};
ghost use Rattle.bench_parts.specs.States.{has_kind, has_model, is_kind};
ghost use Rattle.bench_parts.specs.Views.{test_view, view_of};

use bench_nodes::{ItemRow, ModelRow, TestRow, item_index};
use memo_core::keys::Kind;
use text_values::{Name, Test};

pub(crate) fn model_index(models: &[ModelRow], id: u64) -> usize
    ensures found { result ≡ position_or_len (λ m. m.id == id) models.now }
    ensures within { result ≤ length models.now }
{
    for (index, model) in models.iter().enumerate() {
        if model.id == id {
            return index;
        }
    }
    models.len()
}

pub(crate) fn has_model(models: &[ModelRow], id: u64) -> bool
    ensures { result ≡ has_model models.now id }
{
    for model in models {
        if id == model.id {
            return true;
        }
    }
    false
}

fn is_kind(kind: Kind, own: Option<Kind>) -> bool
    ensures { result ≡ is_kind kind own }
{
    match own {
        Some(other) => kind == other,
        None => false,
    }
}

/// Whether the item of that number is a node of that kind by its text. The guesses are those for
/// the items.
pub(crate) fn has_kind(
    guesses: &[usize],
    items: &[ItemRow],
    kinds: &[Option<Kind>],
    kind: Kind,
    number: u64,
) -> bool
    requires { are_items_guessed guesses.now items.now ≡ true }
    ensures { result ≡ has_kind items.now kinds.now kind number }
{
    let index = item_index(guesses, items, number);
    if index < items.len() && index < kinds.len() {
        is_kind(kind, kinds[index])
    } else {
        false
    }
}

/// A test with its row and its locations.
#[derive(Clone, Copy)]
pub(crate) struct TestView<'p> {
    pub(crate) row: &'p TestRow,
    pub(crate) test: &'p Test,
    pub(crate) locations: &'p [Name],
}

/// The test of a number, which stands at that index.
pub(crate) fn test_at<'p>(
    rows: &'p [TestRow],
    tests: &'p [Test],
    locations: &'p [Vec<Name>],
    _id: u64,
    index: usize,
) -> Option<TestView<'p>>
    requires { index ≡ position_or_len (λ t. t.id == _id) rows.now }
    ensures { option_map test_view result ≡ view_of rows.now tests.now locations.now _id }
{
    if index < rows.len() && index < tests.len() && index < locations.len() {
        Some(TestView {
            row: &rows[index],
            test: &tests[index],
            locations: &locations[index],
        })
    } else {
        None
    }
}
