//! Where the slots of a table stand, and which slots use them: what is looked up in place of a
//! search.

ghost use Rattle.std.specs.Prelude.{◌≡◌, ◌<◌, ◌||◌, ◌++◌, ◌∷◌, not, true, false, List, [], IfOk, IfSome, Some, length, map, take, slice_get, option_map};
ghost use Rattle.bench_nodes.specs.Guesses.{spot_of, are_slots_guessed};
ghost use Rattle.bench_nodes.specs.Slots.{is_slot, has_slot};
ghost use Rattle.bench_nodes.specs.Places.{are_apart, user_names, user_lists, lists_if, lists_in, slot_names, slot_name, put_at, with_user};
ghost use Rattle.bench_nodes.specs.declared.places.SlotName.{SlotName as NameOfSlot};
ghost use Rattle.bench_nodes.specs.declared.table.Slot.{Slot as SlotRecord};

use crate::find::{has_slot_among, is_slot};
use crate::guesses::{left_of, no_guesses, put_guess};
use crate::table::{Slot, SlotKey};
use crate::users::uses;
use memo_core::keys::Kind;
use std::alloc::{AllocError, Global};

/// The most slots whose users are listed.
const MOST_LISTED: usize = 4096;

/// A slot by its kind and number.
#[derive(Clone, Copy, Debug)]
pub struct SlotName {
    /// Its kind.
    pub kind: Kind,
    /// The number of its item or model, 0 for the space.
    pub of: u64,
}

/// Where slots stand, and which slots use them.
pub struct SlotPlaces {
    /// Where the slot of a number may stand, by what is left of the number.
    pub guesses: Vec<usize>,
    /// Whether no two slots are of one kind and number, and the users of each are listed.
    pub are_listed: bool,
    /// The slots that use each slot.
    pub users: Vec<Vec<SlotName>>,
}

impl Drop for SlotPlaces {
    fn drop(self) {
        let SlotPlaces {
            guesses: _,
            are_listed: _,
            users: _,
        } = self;
    }
}

// The spot of a slot among so many.
fn spot_of(kind: Kind, of: u64, count: usize) -> usize
    ensures { result ≡ spot_of kind of count }
{
    let left = left_of(of, count);
    match kind {
        Kind::Space => left,
        Kind::Group => left,
        Kind::Check => left,
        Kind::Verdict => count.saturating_sub(1).saturating_sub(left),
    }
}

/// The index of a slot of that kind and number, if it is guessed.
pub(crate) fn guessed(guesses: &[usize], slots: &[Slot], kind: Kind, of: u64) -> Option<usize>
    ensures { IfSome result (λ at. option_map (is_slot kind of) (slice_get slots.now at)
        ≡ Some true) }
{
    let at = *guesses.get(spot_of(kind, of, guesses.len()))?;
    let slot = slots.get(at)?;
    if is_slot(kind, of, slot) {
        Some(at)
    } else {
        None
    }
}

// Guesses for these slots: at each spot the first of its slots.
fn guesses_of(alloc: Global, slots: &[Slot]) -> Result<Vec<usize>, AllocError>
    ensures { IfOk result (λ v. are_slots_guessed v.items slots.now ≡ true) }
{
    let count = slots.len().saturating_mul(4);
    let mut guesses = no_guesses(alloc, count)?;
    for (index, slot) in slots.iter().enumerate() {
        put_guess(&mut guesses, spot_of(slot.kind, slot.of, count), index);
    }
    Ok(guesses)
}

// Whether no slot before the one at an index is of its kind and number. The guesses are those for
// the slots.
fn is_new(guesses: &[usize], slots: &[Slot], index: usize) -> bool
    requires guessed { are_slots_guessed guesses.now slots.now ≡ true }
    requires there { index < length slots.now }
    ensures { (s : SlotRecord) → slice_get slots.now index ≡ Some s
        → result ≡ not (has_slot (take index slots.now) s.kind s.of) }
{
    let slot = &slots[index];
    let spot = spot_of(slot.kind, slot.of, guesses.len());
    if spot < guesses.len() && guesses[spot] == index {
        return true;
    }
    !has_slot_among(&slots[..index], slot.kind, slot.of)
}

// Whether no two slots are of one kind and number. The guesses are those for the slots.
fn are_apart(guesses: &[usize], slots: &[Slot]) -> bool
    requires { are_slots_guessed guesses.now slots.now ≡ true }
    ensures { result ≡ are_apart slots.now }
{
    for index in 0..slots.len() {
        if !is_new(guesses, slots, index) {
            return false;
        }
    }
    true
}

// The names of the slots that use a slot.
fn user_names(
    alloc: Global,
    slots: &[Slot],
    kind: Kind,
    of: u64,
) -> Result<Vec<SlotName>, AllocError>
    ensures { IfOk result (λ v. v.items ≡ user_names slots.now kind of) }
{
    let mut names = Vec::new(alloc);
    for slot in slots {
        if uses(kind, of, &slot.inputs) {
            names.push(SlotName {
                kind: slot.kind,
                of: slot.of,
            })?;
        }
    }
    Ok(names)
}

// The users of each slot.
fn user_lists(alloc: Global, slots: &[Slot]) -> Result<Vec<Vec<SlotName>>, AllocError>
    ensures { IfOk result (λ v. map slot_names v.items ≡ user_lists slots.now slots.now) }
{
    let mut lists = Vec::with_capacity(alloc, slots.len())?;
    for slot in slots {
        lists.push(user_names(alloc, slots, slot.kind, slot.of)?)?;
    }
    Ok(lists)
}

// No users of each slot.
fn no_lists(alloc: Global, slots: &[Slot]) -> Result<Vec<Vec<SlotName>>, AllocError>
    ensures { IfOk result (λ v. map slot_names v.items ≡ user_lists [] slots.now) }
{
    let mut lists = Vec::with_capacity(alloc, slots.len())?;
    for _ in slots {
        lists.push(Vec::new(alloc))?;
    }
    Ok(lists)
}

// Adds a user of the slot at an index.
fn put_at(lists: &mut Vec<Vec<SlotName>>, at: usize, name: SlotName) -> Result<(), AllocError>
    ensures { IfOk result (λ _. map slot_names lists.new.items
        ≡ put_at at name (map slot_names lists.old.items)) }
{
    if at < lists.len() {
        lists[at].push(name)?;
    }
    Ok(())
}

// Adds a user of the slot whose output one of its inputs is, behind those inputs. Answers whether
// that slot was guessed, if there is one.
fn put_key(
    lists: &mut Vec<Vec<SlotName>>,
    guesses: &[usize],
    slots: &[Slot],
    before: &[SlotKey],
    key: SlotKey,
    name: SlotName,
) -> Result<bool, AllocError>
    requires { are_apart slots.now ≡ true }
    ensures { IfOk result (λ found. found ≡ true → (all : List (List NameOfSlot))
        → map slot_names lists.old.items ≡ with_user name before.now slots.now all
        → map slot_names lists.new.items
        ≡ with_user name (before.now ++ key ∷ []) slots.now all) }
{
    let SlotKey::Value(kind, of, _) = key else {
        return Ok(true);
    };
    if uses(kind, of, before) {
        return Ok(true);
    }
    match guessed(guesses, slots, kind, of) {
        Some(at) => {
            put_at(lists, at, name)?;
            Ok(true)
        }
        None => Ok(false),
    }
}

// Adds a user of the slots whose outputs its inputs are. Answers whether each of these slots was
// guessed.
fn put_user(
    lists: &mut Vec<Vec<SlotName>>,
    guesses: &[usize],
    slots: &[Slot],
    user: &Slot,
) -> Result<bool, AllocError>
    requires { are_apart slots.now ≡ true }
    ensures { IfOk result (λ found. found ≡ true
        → map slot_names lists.new.items
        ≡ with_user (slot_name user.now) user.now.inputs.items slots.now
        (map slot_names lists.old.items)) }
{
    let inputs = user.inputs.as_slice();
    let name = SlotName {
        kind: user.kind,
        of: user.of,
    };
    for index in 0..inputs.len() {
        if !put_key(lists, guesses, slots, &inputs[..index], inputs[index], name)? {
            return Ok(false);
        }
    }
    Ok(true)
}

// The users of each slot, where each slot that is used is guessed.
fn guessed_lists(
    alloc: Global,
    guesses: &[usize],
    slots: &[Slot],
) -> Result<Option<Vec<Vec<SlotName>>>, AllocError>
    requires { are_apart slots.now ≡ true }
    ensures { IfOk result (λ found.
        IfSome found (λ v. map slot_names v.items ≡ user_lists slots.now slots.now)) }
{
    let mut lists = no_lists(alloc, slots)?;
    for slot in slots {
        if !put_user(&mut lists, guesses, slots, slot)? {
            return Ok(None);
        }
    }
    Ok(Some(lists))
}

impl SlotPlaces {
    /// No places.
    pub fn new(alloc: Global) -> SlotPlaces
        ensures unlisted { result.are_listed ≡ false }
        ensures none { result.users.items ≡ [] }
    {
        SlotPlaces {
            guesses: Vec::new(alloc),
            are_listed: false,
            users: Vec::new(alloc),
        }
    }

    /// The places of slots. Errors: want of memory.
    pub fn of(alloc: Global, slots: &[Slot]) -> Result<SlotPlaces, AllocError>
        ensures apart { IfOk result (λ p. (not p.are_listed || are_apart slots.now) ≡ true) }
        ensures listed { IfOk result (λ p. lists_in p.are_listed p.users.items
            ≡ lists_if p.are_listed slots.now) }
    {
        if slots.len() > MOST_LISTED {
            return Ok(SlotPlaces::new(alloc));
        }
        let guesses = guesses_of(alloc, slots)?;
        if !are_apart(&guesses, slots) {
            return Ok(SlotPlaces::new(alloc));
        }
        let users = match guessed_lists(alloc, &guesses, slots)? {
            Some(users) => users,
            None => user_lists(alloc, slots)?,
        };
        Ok(SlotPlaces {
            guesses,
            are_listed: true,
            users,
        })
    }
}
