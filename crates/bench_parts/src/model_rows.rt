//! The rows of models.

ghost use Rattle.bench_parts.specs.Models.{fault_by, fault_stamp_by, IsModelRowOf};
ghost use Rattle.bench_parts.specs.Stamps.{IsStampOf};
ghost use Rattle.bench_parts.specs.Contents.{fault_part};

use bench_nodes::ModelRow;
use binding_graph::ModelFault;

/// A model on the bench, by its row and its fault.
#[derive(Clone, Copy)]
pub struct HeldModel {
    /// The stamp of its fault.
    pub row: ModelRow,
    /// Its fault, if it has one.
    pub fault: Option<ModelFault>,
}

// The stamp of a fault that was this one, with this stamp.
fn stamp_after(fresh: u64, held: HeldModel, fault: ModelFault) -> u64
    ensures { IsStampOf fresh (fault_part held.fault) held.row.stamp (fault_part (Some fault))
        result }
{
    match held.fault {
        Some(earlier) => {
            if earlier == fault {
                held.row.stamp
            } else {
                fresh
            }
        }
        None => fresh,
    }
}

fn fault_stamp(fresh: u64, before: Option<HeldModel>, fault: Option<ModelFault>) -> u64
    ensures { IsStampOf fresh (fault_by before) (fault_stamp_by before) (fault_part fault) result }
{
    match fault {
        Some(fault) => match before {
            Some(held) => stamp_after(fresh, held, fault),
            None => fresh,
        },
        None => 0,
    }
}

/// The row of a model of this number with this fault, if it has one. `before` is the model before
/// the edit, if it was there.
pub fn model_row(
    fresh: u64,
    before: Option<HeldModel>,
    id: u64,
    fault: Option<ModelFault>,
) -> ModelRow
    ensures { IsModelRowOf fresh before id fault result }
{
    ModelRow {
        id,
        stamp: fault_stamp(fresh, before, fault),
    }
}
