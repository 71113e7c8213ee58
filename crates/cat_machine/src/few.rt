//! Lists that are mostly short.

ghost use Rattle.std.specs.Prelude.{◌≡◌, ◌++◌, ◌∷◌, [], OnOk, OnErr};

use std::alloc::{AllocError, Global};
use std::marker::Model;

/// How many elements a list has room for before it takes memory.
const FEW: usize = 8;

/// A list that takes memory only where it has more than a few elements. Contracts see its elements.
#[derive(Drop)]
pub struct Few<T> {
    /// The elements, while they are few, and behind them what stands for none.
    room: [T; FEW],
    /// How many elements are there.
    count: usize,
    /// The elements, once they are more.
    many: Vec<T>,
}

impl<T> Model for Few<T> {
    ghost use Rattle.std.specs.Prelude.{◌≡◌, ◌≤◌, ◌⊎◌, ◌++◌, List, [], take};
    ghost use Rattle.std.specs.Coded.{coded_list};

    ghost Value = { List T };

    ghost coded = { coded_list T.code };

    ghost view = { λ f. take f.count f.room ++ f.many.items };

    ghost invariant = { λ f. (f.count ≤ 8) × ((f.count ≡ 0) ⊎ (f.many.items ≡ [])) };
}

impl<T: Copy> Few<T> {
    /// A list without an element. What it is given stands in the places that no element has yet.
    pub fn new(alloc: Global, blank: T) -> Few<T>
        ensures { result ≡ [] }
    {
        Few {
            room: [blank; FEW],
            count: 0,
            many: Vec::new(alloc),
        }
    }

    /// Adds an element behind the others. Where memory is out the list stays as it was.
    pub fn push(&mut self, value: T) -> Result<(), AllocError>
        ensures added { OnOk result (self.new ≡ self.old ++ value ∷ []) }
        ensures kept { OnErr result (self.new ≡ self.old) }
    {
        if self.many.is_empty() && self.count < FEW {
            self.room[self.count] = value;
            self.count += 1;
            return Ok(());
        }
        self.many.extend_from_slice(&self.room[..self.count])?;
        self.count = 0;
        self.many.push(value)?;
        Ok(())
    }

    /// The elements.
    pub fn as_slice(&self) -> &[T]
        ensures { result.now ≡ self.now }
    {
        if 0 < self.count {
            &self.room[..self.count]
        } else {
            &self.many
        }
    }
}
