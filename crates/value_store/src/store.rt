//! A store of values that only grows.

ghost use Rattle.std.specs.Prelude.{◌≡◌, IsTrue, IfOk, IfErr, min};

use crate::fault::StoreFault;
use crate::token::{StoreName, Token};
use boxcar::Vec as Shelf;
use std::alloc::{AllocError, Global};
use std::marker::{Brand, PhantomData};
use std::sync::Wait;
use std::sync::atomic::{AtomicUsize, Ordering};

/// No store takes more values than this.
pub const MAX_VALUES: usize = 1_048_576;

/// An empty store that has no name yet. A caller picks the name whose shelves are these.
#[derive(Drop)]
pub struct Opened<V> {
    /// The shelves.
    pub values: Shelf<V>,
    /// How many values it takes.
    pub limit: usize,
}

/// The store of that name. Values are put into it and stay, so that threads share it by a `&`.
#[derive(Drop)]
pub struct Store<K: StoreName, V> {
    values: Shelf<V>,
    count: AtomicUsize,
    limit: usize,
    of: PhantomData<K>,
    ghost is: { values ≡ K.shelves },
}

impl<V: Drop> Store<Brand, V> {
    /// An empty store of at most `MAX_VALUES` values.
    pub fn new(alloc: Global) -> Result<Opened<V>, AllocError>
        ensures limit { IfOk result (λ opened. opened.limit ≡ MAX_VALUES) }
    {
        Store::with_limit(alloc, MAX_VALUES)
    }

    /// An empty store of at most `limit` values, and never more than `MAX_VALUES`.
    pub fn with_limit(alloc: Global, limit: usize) -> Result<Opened<V>, AllocError>
        ensures limit { IfOk result (λ opened. opened.limit ≡ min limit MAX_VALUES) }
    {
        Ok(Opened {
            values: Shelf::new(alloc)?,
            limit: limit.min(MAX_VALUES),
        })
    }
}

impl<V: Drop> Opened<V> {
    /// The store under the name that the caller picked for it.
    pub fn named<K: StoreName>(self) -> Store<K, V>
        requires { self.values ≡ K.shelves }
        ensures limit { result.limit ≡ self.limit }
    {
        Store {
            values: self.values,
            count: AtomicUsize::new(0),
            limit: self.limit,
            of: PhantomData,
        }
    }
}

impl<K: StoreName, V: Drop> Store<K, V> {
    /// Takes a value and answers the token that shows it. On each refusal the value comes back: the
    /// store is full, or a growth was refused, which may use up one of the values that it takes.
    /// It may wait while another thread grows the store.
    pub fn put<R: Wait>(&self, rt: &R, value: V) -> Result<Token<K, V>, (V, StoreFault)>
        ensures token { IfOk result (λ t. t.value ≡ value) }
        ensures refused { IfErr result (λ e. e.0 ≡ value) }
    {
        if self.count.load(Ordering::SeqCst) >= self.limit {
            return Err((value, StoreFault::StoreFull));
        }
        self.count.fetch_add(1, Ordering::SeqCst);
        match self.values.push_shown(rt, value) {
            Ok(placed) => Ok(Token {
                placed,
                of: PhantomData,
            }),
            Err(value) => Err((value, StoreFault::OutOfMemory)),
        }
    }

    /// The value that the token shows.
    pub fn see(&self, token: &Token<K, V>) -> &V
        ensures { result.now ≡ token.now.value }
    {
        self.values.value(&token.placed)
    }

    /// Whether two tokens are of one index. Where they are, they show one value; where they are
    /// not, their values may still be equal.
    pub fn is_one(&self, a: &Token<K, V>, b: &Token<K, V>) -> bool
        ensures yes { IsTrue result → a.now.index ≡ b.now.index }
        ensures no { a.now.index ≡ b.now.index → IsTrue result }
        ensures value { IsTrue result → a.now.value ≡ b.now.value }
    {
        if a.placed.index() == b.placed.index() {
            self.values.agrees(&a.placed, &b.placed);
            true
        } else {
            false
        }
    }
}
