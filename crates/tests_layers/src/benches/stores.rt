//! What a store takes, and what its tokens show.

ghost use Rattle.std.specs.Prelude.{◌≡◌};

use std::io;
use std::marker::Brand;
use std::sync::Wait;
use value_store::{MAX_VALUES, Opened, Store, StoreFault, StoreName};

/// Two values fill a store of two, and the third comes back.
fn fill<R: Print + Wait, K: StoreName>(rt: &R, opened: Opened<u64>) -> io::Result<()>
    requires { opened.values ≡ K.shelves }
{
    let store = opened.named::<K>();
    let (Ok(first), Ok(second)) = (store.put(rt, 5), store.put(rt, 5)) else {
        return println!(rt; "a value is refused");
    };
    let seen = *store.see(&first);
    let is_its_own = store.is_one(&first, &first.again());
    let is_another = store.is_one(&first, &second);
    println!(rt; "seen {seen}, one with itself {is_its_own}, one with another {is_another}")?;
    match store.put(rt, 7) {
        Err((value, fault)) => {
            let is_full = fault == StoreFault::StoreFull;
            let is_first = fault.number() == Some(1);
            println!(rt; "{value} comes back, full {is_full}, S1 {is_first}")
        }
        Ok(_) => println!(rt; "the store is not full"),
    }
}

/// A store of two values, and how many a store takes at most.
pub fn show<R: Print + AllocGlobal + Wait>(rt: &R) -> io::Result<()> {
    let alloc = rt.alloc();
    let small = Store::with_limit(alloc, 2)?;
    let limit = small.limit;
    println!(rt; "a store of {limit}")?;
    fill::<R, Brand>(rt, small)?;
    let opened: Opened<u64> = Store::new(alloc)?;
    let capped: Opened<u64> = Store::with_limit(alloc, MAX_VALUES + 1)?;
    let most = opened.limit;
    let least = capped.limit;
    println!(rt; "a new store takes {most}, and none takes more: {least}")
}
