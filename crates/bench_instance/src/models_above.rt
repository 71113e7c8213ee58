//! Under which model the verdicts are that may stand on a node.

ghost use Rattle.std.specs.Prelude.{◌≡◌, ◌==◌, IfSome};
ghost use Rattle.std.specs.List.{position_or_len};
ghost use Rattle.bench_instance.specs.StampedTexts.{AreSoundTexts};
ghost use Rattle.bench_instance.specs.Above.{model_holding, IsModelAbove};

use crate::stamped_texts::StampedTexts;
use bench_texts::NamedModel;
use memo_core::keys::{Kind, Node};

// The index of the model that has the item at an index among those of all models, or how many
// models there are.
fn model_holding(models: &[NamedModel], item: usize) -> usize
    ensures { result ≡ model_holding models.now item }
{
    let mut left = item;
    for (index, model) in models.iter().enumerate() {
        let count = model.numbers().len();
        if left < count {
            return index;
        }
        left -= count;
    }
    models.len()
}

impl StampedTexts {
    // The index of the model that has the item of that number.
    fn item_model(&self, number: u64) -> usize
        ensures { result ≡ model_holding self.now.texts.models.items
            (position_or_len (λ i. i.number == number) self.now.parts.table.items.items) }
    {
        model_holding(self.texts.models(), self.parts.item_index(number))
    }

    /// The index of the model whose verdicts alone may stand on a node, if there is but one: all of
    /// a test stand on its space.
    pub(crate) fn model_above(&self, node: Node) -> Option<usize>
        requires { AreSoundTexts self.now }
        ensures { IfSome result (IsModelAbove self.now node) }
    {
        match node.kind {
            Kind::Space => None,
            Kind::Group => Some(self.item_model(node.of)),
            Kind::Check => Some(self.item_model(node.of)),
            Kind::Verdict => Some(self.parts.model_index(node.of)),
        }
    }
}
