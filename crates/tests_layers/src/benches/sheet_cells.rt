//! A sheet as texts of cells. The cell of no name shows the tens of the base, that of one byte the
//! row of that number.

use crate::benches::nodes::{TENS, cell};
use crate::benches::rows::find_row;
use crate::benches::sheet::{Change, Sheet};
use cells::texts::CellTexts;
use memo_core::keys::Node;
use std::alloc::{AllocError, Global};

impl CellTexts for Sheet {
    type Outcome = u64;

    ghost use Rattle.std.specs.Prelude.{◌≡◌, true, [], Some};
    ghost use Rattle.tests_layers.specs.SheetCells.{verdict_at, sheet_from_scratch, reaches};
    ghost use Rattle.tests_layers.specs.Lemmas.CellProofs.{edited_alike, refused_alike, verdicts_used, all_needed, cells_solved, cells_left};

    ghost verdict_of = { λ s test model. verdict_at s.rows.items test model };

    ghost outcome_in = { λ v. Some v };

    ghost from_scratch = { sheet_from_scratch };

    ghost reaches = { λ s e _ test _. reaches s e test ≡ true };

    ghost is_empty = { λ s. (s.rows.items ≡ []) × (s.base ≡ 0) × (s.base_stamp ≡ 0)
        × (s.last ≡ 0) };

    ghost same_edit = { λ e f. e ≡ f };

    fn empty(alloc: Global) -> Sheet {
        Sheet::empty(alloc)
    }

    fn verdict_of(&self, test: &[u8], model: &[u8]) -> Option<Node> {
        if model.len() != 0 {
            return None;
        }
        if test.len() == 0 {
            return Some(TENS);
        }
        if test.len() != 1 {
            return None;
        }
        let name = test[0] as u64;
        match find_row(self.rows.as_slice(), name) {
            Some(_) => Some(cell(name)),
            None => None,
        }
    }

    fn outcome_in(value: &u64) -> Option<&u64> {
        Some(value)
    }

    fn copy_edit(_alloc: Global, edit: &Change) -> Result<Change, AllocError> {
        Ok(*edit)
    }

    ghost edited_same = { λ s u e f number is h. edited_alike s u e f number is h };

    ghost refused_same = { λ s e f spent fault is h. refused_alike s e f spent fault is h };

    ghost verdict_used = { λ s test model n _ is. verdicts_used s.rows.items test model n is };

    ghost used_needed = { λ s _. all_needed s };

    ghost solved = { λ s test model _. cells_solved s test model };

    ghost unreached = { λ s u e number test model _ is away.
        cells_left s u e number test model is away };
}
