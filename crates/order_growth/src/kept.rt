//! Laws of columns and answers: they depend only on what an item says, on what the candidates of a
//! space show, and on the values of the item's inputs. Read specs/KeptLaws first, after `Columns`
//! and `Values` of `cat_machine/specs`.

ghost use Rattle.order_growth.specs.KeptLaws.{KeepsColumns, KeepsAnswers};

use binding_graph::Role;
use candidates::Space;

/// Columns of an item are columns of an item that says the same, over a space that shows the same.
pub fn columns_are_kept(role: &Role, other: &Role, space: &Space, another: &Space)
    ensures { KeepsColumns role.now other.now space.now another.now }
{
    let _role = role;
    let _other = other;
    let _space = space;
    let _another = another;
}

/// Answers of a check are answers of a check that says the same, over a space that shows the same.
pub fn answers_are_kept(role: &Role, other: &Role, space: &Space, another: &Space)
    ensures { KeepsAnswers role.now other.now space.now another.now }
{
    let _role = role;
    let _other = other;
    let _space = space;
    let _another = another;
}
