//! The names of outputs, which returns tell by their numbers.

ghost use Rattle.std.specs.Prelude.{◌≡◌, option_map};
ghost use Rattle.bench_parts.specs.Contents.{histories};
ghost use Rattle.bench_instance.specs.StampedTexts.{stamped_state};
ghost use Rattle.bench_instance.specs.Outputs.{seen_at, only_name, name_by, output_name};

use crate::stamped_texts::StampedTexts;
use memo_core::keys::{Kind, Node};
use text_values::Name;

// The name of that number of a history.
fn seen_at(history: &[Name], number: u64) -> Option<&[u8]>
    ensures { option_map (λ b. b.now) result ≡ seen_at history.now number }
{
    match history.get(number as usize) {
        Some(name) => Some(name.as_bytes()),
        None => None,
    }
}

// The name of the only output of a node, which goes by 0.
fn only_name(name: &'static [u8], number: u64) -> Option<&'static [u8]>
    ensures { option_map (λ b. b.now) result ≡ only_name name.now number }
{
    if number == 0 { Some(name) } else { None }
}

// The name of an output of a node of that kind, whose item has that history, if it has an item.
fn name_by(kind: Kind, history: &[Name], number: u64) -> Option<&[u8]>
    ensures { option_map (λ b. b.now) result ≡ name_by kind history.now number }
{
    match kind {
        Kind::Space => only_name(b"space", number),
        Kind::Group => seen_at(history, number),
        Kind::Check => only_name(b"check", number),
        Kind::Verdict => only_name(b"verdict", number),
    }
}

impl StampedTexts {
    // The names that the item of that number has had, none where there is no such item.
    fn history(&self, item: u64) -> &[Name]
        ensures { result.now ≡ histories (stamped_state self.now) item }
    {
        let index = self.parts.item_index(item);
        if index >= self.parts.table.items.len() || index >= self.parts.roles.len() {
            return &[];
        }
        match &self.parts.roles[index] {
            Some(role) => role.history(),
            None => &[],
        }
    }

    /// The name of the output of a node that goes by that number, as a return tells it: of a group
    /// the name that its item got as the one of that number, counted from 0, also where the item
    /// has it no more; of any other node, whose only output goes by 0, `space`, `check` or
    /// `verdict`, also where there is no such node. None for a number that is none of the item's
    /// names, or not 0 for any other node.
    pub fn output_name(&self, node: Node, number: u64) -> Option<&[u8]>
        ensures { option_map (λ b. b.now) result
            ≡ output_name (histories (stamped_state self.now)) node number }
    {
        name_by(node.kind, self.history(node.of), number)
    }
}
