ghost use Rattle.std.specs.Prelude.{◌≡◌};

use crate::sums::{Addend, Sums};
use desk_history::{Naming, Opened, Opening, Press, SEATS, Viewer, open};
use std::alloc::Global;
use std::marker::Brand;
use std::mem::drop;
use std::process::Abort;
use std::sync::Wait;
use std::test::*;

#[test]
fn numbers_add_up(rt: HostRuntime) -> Result<(), Fail> {
    added::<Brand, _>(rt, rt.alloc(), Opened::new())
}

// What a viewer sees, and the viewer again.
fn seen<J: Naming>(viewer: Viewer<J, Sums>) -> (u64, Viewer<J, Sums>) {
    match viewer.read() {
        Ok(view) => {
            let total = view.board().total;
            (total, view.leave())
        }
        Err(viewer) => (999, viewer),
    }
}

fn added<J: Naming, R: Wait + Abort + Copy>(
    rt: R,
    alloc: Global,
    seed: Opened<Addend>,
) -> Result<(), Fail>
    requires { seed.seen.book ≡ J.book }
{
    let opening = open::<J, Sums, R>(&rt, alloc, seed).ok().ok_or("a press")?;
    let Opening {
        mut press,
        mut seats,
    } = opening;
    let outcome = fill(&rt, &mut press, seats.give());
    for _ in 1..SEATS {
        assert!(&rt; seats.give().is_some());
    }
    assert!(&rt; seats.give().is_none());
    press.close(&rt);
    outcome
}

fn fill<J: Naming, R: Wait + Abort + Copy>(
    rt: &R,
    press: &mut Press<J, Sums>,
    viewer: Option<Viewer<J, Sums>>,
) -> Result<(), Fail> {
    let viewer = viewer.ok_or("a viewer")?;
    assert!(rt; press.append(Addend { number: 3 }).is_ok());
    assert!(rt; press.append(Addend { number: 4 }).is_ok());
    let (before, viewer) = seen(viewer);
    assert!(rt; before == 0);
    assert!(rt; press.is_pending());
    assert!(rt; press.board().is_some());
    assert!(rt; press.publish(rt));
    assert!(rt; !press.is_pending());
    let (after, mut viewer) = seen(viewer);
    assert!(rt; after == 7);
    assert!(rt; press.append(Addend { number: 5 }).is_ok());
    viewer.tell(press.front());
    let (early, viewer) = seen(viewer);
    assert!(rt; early == 999);
    assert!(rt; press.publish(rt));
    let (late, viewer) = seen(viewer);
    assert!(rt; late == 12);
    drop(viewer);
    Ok(())
}
