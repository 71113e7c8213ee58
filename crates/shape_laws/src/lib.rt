//! A law of shapes: an item of a model without fault is had back from its shape and from the kinds
//! of the names that it uses. Read specs/Laws, after `Shapes` of `binding_shapes/specs`.
#![tactic(auto)]

ghost use Rattle.shape_laws.specs.Laws.{AreReadByKind};

use text_values::ModelText;

/// Each item of a model without fault reads each name that it uses by the kind of that name.
pub fn items_are_read_by_kind(model: &ModelText)
    ensures { AreReadByKind model.now }
{
    let _model = model;
}
