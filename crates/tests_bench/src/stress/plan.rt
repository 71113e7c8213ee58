//! What the author does, and what each cell shows after it.

use crate::walk::draw::{Draw, Drawn, draw_edit};
use crate::walk::mirror::{Logs, Mirror};
use std::alloc::{AllocError, Global};
use std::sync::Arc;

/// How many edits are accepted.
pub const EDITS: usize = 500;

/// No more edits than these are drawn.
const MOST_DRAWN: u32 = 100_000;

/// An edit, and whether it is accepted.
#[derive(Clone, Copy)]
pub struct Step {
    pub drawn: Drawn,
    pub is_accepted: bool,
}

/// The edits in order, and the logs of the cells, evaluated from nothing, after each number of
/// edits that are accepted.
#[derive(Drop)]
pub struct Plan {
    steps: Vec<Step>,
    logs: Vec<Arc<Logs, Global>>,
}

impl Plan {
    /// The edits in order.
    pub fn steps(&self) -> &[Step] {
        &self.steps
    }

    /// The logs after so many edits.
    pub fn after(&self, edits: u64) -> Option<&Logs> {
        match usize::try_from(edits) {
            Ok(index) => Some(&**self.logs.get(index)?),
            Err(_) => None,
        }
    }
}

/// Draws an edit, and evaluates the cells after it where it is accepted.
fn add_step(
    alloc: Global,
    draw: &mut Draw,
    mirror: &mut Mirror,
    plan: &mut Plan,
) -> Result<(), AllocError> {
    let drawn = draw_edit(draw, mirror);
    let is_accepted = mirror.edit(alloc, &drawn)?;
    if is_accepted {
        plan.logs.push(Arc::try_clone(mirror.logs())?)?;
    }
    plan.steps.push(Step { drawn, is_accepted })?;
    Ok(())
}

/// Draws edits until so many are accepted, and evaluates the cells after each.
pub fn planned(alloc: Global) -> Result<Plan, AllocError> {
    let mut draw = Draw::new(17);
    let mut mirror = Mirror::new(alloc)?;
    let mut plan = Plan {
        steps: Vec::new(alloc),
        logs: Vec::new(alloc),
    };
    plan.logs.push(Arc::try_clone(mirror.logs())?)?;
    for _ in 0..MOST_DRAWN {
        if plan.logs.len() > EDITS {
            break;
        }
        add_step(alloc, &mut draw, &mut mirror, &mut plan)?;
    }
    Ok(plan)
}
