//! What names stand for.

ghost use Rattle.std.specs.Prelude.{◌≡◌, [], reverse, map, bytes_eq, IfOk};
ghost use Rattle.text_values.specs.Names.{key_of};
ghost use Rattle.binding_kinds.specs.Value.{entry_of};
ghost use Rattle.binding_kinds.specs.Kinds.{found, kind_found};
ghost use Rattle.binding_kinds.specs.Outermost.{kind_of_predefined, naming_of};

use crate::function::Function;
use crate::kinds::Kind;
use std::alloc::{AllocError, Global};
use text_values::{Name, PREDEFINED, Predefined};

/// A name of another item: the item's index in the model, and the name's position in its group.
#[derive(Clone, Copy)]
pub struct Input {
    /// From 0, in the order of the text.
    pub item: usize,
    /// From 0.
    pub position: usize,
}

/// What binds a name.
#[derive(Clone, Copy)]
pub enum Binder {
    /// The language.
    Predefined(Predefined),
    /// A name of a group.
    Bound(Input),
    /// A function, by its index among the functions of the scope.
    Applicable(usize),
}

/// A name that stands for something.
pub struct Entry {
    /// How it is written.
    pub name: Name,
    /// The kind of its value.
    pub kind: Kind,
    /// What binds it.
    pub binder: Binder,
}

impl Drop for Entry {
    fn drop(self) {
        let Entry {
            name: _,
            kind: _,
            binder: _,
        } = self;
    }
}

/// Where a name is bound, as an index in the scope, and what it stands for there.
#[derive(Clone, Copy)]
pub struct Found {
    /// From 0.
    pub slot: usize,
    /// The kind of its value.
    pub kind: Kind,
    /// What binds it.
    pub binder: Binder,
}

/// A name of another item that an item uses, by its slot and by its index in that item.
#[derive(Clone, Copy)]
pub struct Used {
    /// Its index in the scope.
    pub slot: usize,
    /// Its item and its position there.
    pub input: Input,
}

/// The names that are seen, the latest last. A name's index, its slot, stays the same as the
/// scope grows.
#[derive(Drop)]
pub struct Scope {
    /// The predefined names, then those of the items in the order of the text.
    pub entries: Vec<Entry>,
    /// In the order of the text.
    pub functions: Vec<Function>,
}

// So many bytes of a name are in its key.
const KEYED: usize = 7;

/// Whether two names are the same, the key of the second of which is given: most are told apart by
/// it.
#[tactic(auto, using(crate::proofs::Scopes::keys_apart))]
fn is_keyed(one: &Name, other: &Name, key: u64) -> bool
    ensures { key ≡ key_of other.now → result ≡ bytes_eq one.now other.now }
{
    if one.key() != key {
        return false;
    }
    let mine = one.as_bytes();
    let others = other.as_bytes();
    mine.len() <= KEYED || mine == others
}

/// The last entry of that name.
#[tactic(auto, using(crate::proofs::Scopes::rev_less))]
pub fn find(entries: &[Entry], name: &Name) -> Option<Found>
    ensures { result ≡ found (reverse (map entry_of entries.now)) name.now }
{
    let key = name.key();
    let mut end = entries.len();
    'names: while 0 < end {
        end -= 1;
        let entry = &entries[end];
        if is_keyed(&entry.name, name, key) {
            return Some(Found {
                slot: end,
                kind: entry.kind,
                binder: entry.binder,
            });
        }
    }
    None
}

/// The kind of a name that was looked for.
pub fn kind_found(found: Option<Found>) -> Kind
    ensures { result ≡ kind_found found }
{
    match found {
        None => Kind::OfAny,
        Some(found) => found.kind,
    }
}

fn kind_of_predefined(one: Predefined) -> Kind
    ensures { result ≡ kind_of_predefined one }
{
    if one.is_set() {
        Kind::OfSet
    } else {
        Kind::OfRelation
    }
}

/// The entries of predefined names.
fn predefined_entries(alloc: Global, names: &[Predefined]) -> Result<Vec<Entry>, AllocError>
    ensures { IfOk result (λ v. map entry_of v.items ≡ map naming_of names.now) }
{
    let mut entries = Vec::with_capacity(alloc, names.len())?;
    for one in names {
        entries.push(Entry {
            name: Name::new(alloc, one.spelling())?,
            kind: kind_of_predefined(*one),
            binder: Binder::Predefined(*one),
        })?;
    }
    Ok(entries)
}

impl Scope {
    /// The predefined names. Errors: want of memory.
    pub fn new(alloc: Global) -> Result<Scope, AllocError>
        ensures entries { IfOk result (λ s. map entry_of s.entries.items
            ≡ map naming_of PREDEFINED) }
        ensures functions { IfOk result (λ s. s.functions.items ≡ []) }
    {
        Ok(Scope {
            entries: predefined_entries(alloc, &PREDEFINED)?,
            functions: Vec::new(alloc),
        })
    }
}
