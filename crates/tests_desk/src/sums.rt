//! Numbers that add up.

use desk_history::Operations;
use std::alloc::{AllocError, Global};

/// The sum of the numbers so far.
#[derive(Clone, Copy, Drop)]
pub struct Sum {
    pub total: u64,
}

/// A number that is added.
#[derive(Clone, Copy, Drop)]
pub struct Addend {
    pub number: u64,
}

/// Numbers below ten.
pub struct Sums;

impl Operations for Sums {
    type Op = Addend;

    type Board = Sum;

    ghost use Rattle.tests_desk.specs.Sums.{no_sum, sum_after, AreSmallNumbers, IsSmall};
    ghost use Rattle.tests_desk.specs.Lemmas.SumLaws.{small_more};

    ghost is_legal = { AreSmallNumbers };

    ghost may_follow = { λ ops op. IsSmall op };

    ghost none = { no_sum };

    ghost after = { sum_after };

    fn blank(_alloc: Global) -> Sum {
        Sum { total: 0 }
    }

    fn apply(_alloc: Global, board: &mut Sum, op: &Addend) -> Result<(), AllocError> {
        board.total = board.total.wrapping_add(op.number);
        Ok(())
    }

    ghost legal_none = { tt };

    ghost legal_more = { small_more };
}
