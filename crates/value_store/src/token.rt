//! Tokens of a store, and the name that ties them to it.

ghost use Rattle.std.specs.Prelude.{◌≡◌, []};
ghost use Rattle.boxcar.specs.Table.{Shelves, Shows};
ghost use Rattle.value_store.specs.Lemmas.Codes.{shown_coded};
ghost use Rattle.value_store.specs.Tokens.{TokenShown};

use boxcar::Pushed;
use std::marker::{Brand, Model, PhantomData};

/// Which store a token is of. A name stands for one store: its shelves are that store's.
/// `Brand` stands for the name that a caller picks for a store that it has opened.
pub trait StoreName {
    ghost shelves: { Shelves };
}

impl StoreName for Brand {
    ghost shelves = { record { tag = []; buckets = [] } };
}

/// What shows one value of the store of that name, for good. A clause sees its index in the store
/// and its value.
#[derive(Drop)]
pub struct Token<K: StoreName, V> {
    pub(crate) placed: Pushed<V>,
    pub(crate) of: PhantomData<K>,
}

impl<K: StoreName, V> Model for Token<K, V> {
    ghost Value = { TokenShown V };

    ghost coded = { shown_coded V.code };

    ghost view = { λ t. record { index = t.placed.index; value = t.placed.value } };

    ghost invariant = { λ t. Shows K.shelves t.placed };
}

impl<K: StoreName, V> Token<K, V> {
    /// Another token of the same value. It takes no memory.
    pub fn again(&self) -> Token<K, V>
        ensures { result ≡ self.now }
    {
        Token {
            placed: self.placed.again(),
            of: PhantomData,
        }
    }
}
