//! A sheet: a base number and a number a row. One node keeps the tens of the base, and on it stands
//! a cell a row, the sum of the row's number and those tens.

ghost use Rattle.std.specs.Prelude.{◌≡◌, []};

use crate::benches::nodes::{TENS, cell, is_cell, result};
use crate::benches::rows::{Row, find_row, put, remove};
use memo_core::keys::{Key, Kind, Node, Output, is_same_node};
use memo_core::texts::Texts;
use std::alloc::{AllocError, Global};
use std::cell::Cell;
use thiserror::Error;

/// The rows, the base with the number of the edit that last changed it, the last edit's number, the
/// node that it touched, and how often a bench asked for a node.
#[derive(Drop)]
pub struct Sheet {
    pub rows: Vec<Row>,
    pub base: u64,
    pub base_stamp: u64,
    pub last: u64,
    pub touched: Option<Node>,
    asked: Cell<u64>,
}

impl Sheet {
    /// No rows, and the base 0.
    pub fn empty(alloc: Global) -> Self
        ensures rows { result.rows.items ≡ [] }
        ensures base { result.base ≡ 0 }
        ensures stamp { result.base_stamp ≡ 0 }
        ensures last { result.last ≡ 0 }
    {
        Sheet {
            rows: Vec::new(alloc),
            base: 0,
            base_stamp: 0,
            last: 0,
            touched: None,
            asked: Cell::new(0),
        }
    }

    /// How often a bench asked for a used node, for one that the last edit touched or that stands
    /// on another, or whether a memo may stay.
    pub fn asked(&self) -> u64 {
        self.asked.get()
    }

    fn count(&self) {
        self.asked.set(self.asked.get().wrapping_add(1));
    }
}

/// An edit of a sheet.
#[derive(Clone, Copy, Debug, Drop)]
pub enum Change {
    Put(u64, u64),
    Remove(u64),
    SetBase(u64),
}

/// An edit that is checked, with room for one more row. No more than `used` nodes are used after
/// it.
#[derive(Drop)]
pub struct Prepared {
    pub change: Change,
    pub used: usize,
}

/// Why an edit of a sheet is refused.
#[derive(Debug, Drop, Error)]
pub enum SheetFault {
    #[error("the row is not there")]
    Missing,
    #[error("the numbers are spent")]
    Spent,
    #[error("out of memory")]
    OutOfMemory,
}

impl Texts for Sheet {
    type Value = u64;

    type Given = u64;

    type Edit = Change;

    type Prepared = Prepared;

    type Fault = SheetFault;

    ghost use Rattle.std.specs.Prelude.{◌≡◌, ◌==◌, ◌<◌, ◌+◌, length, vec_len, vec_capacity};
    ghost use Rattle.tests_layers.specs.Sheet.{sheet_net, sheet_makes, is_there, users_of, nodes_touched, is_removal, rank_of, keeps_memo, IsSheetValid, IsSheetSince, IsChanged, IsSheetRefused, IsSheetPrepared};
    ghost use Rattle.tests_layers.specs.Lemmas.Laws.{numbers_exact, sheet_sound, since_same, since_changed, given_again, changes_valid, prepared_changes, all_there, inputs_used, users_listed, users_read, ranks_fall, changes_go_on};
    ghost use Rattle.tests_layers.specs.Lemmas.Touched.{cells_kept, changes_keep, changes_touch};

    ghost is_valid = { IsSheetValid };

    ghost net = { sheet_net };

    ghost since = { IsSheetSince };

    ghost last = { λ s. s.last };

    ghost makes = { sheet_makes };

    ghost same = { λ a b. a == b };

    ghost is_there = { λ s n. is_there n.kind n.test s.rows.items };

    ghost users = { λ s n. users_of n s.rows.items };

    ghost touched = { λ s. nodes_touched s.touched };

    ghost rank = { λ _ n. rank_of n.kind };

    ghost keeps = { λ s n. keeps_memo n.kind n.test s.rows.items };

    ghost edited = { IsChanged };

    ghost refuses = { IsSheetRefused };

    ghost prepares = { IsSheetPrepared };

    ghost is_ready = { λ s p. (vec_len s.rows < vec_capacity s.rows)
        × (p.used ≡ length s.rows.items + 2) };

    ghost commits = { λ s p number new. IsChanged s p.change number new };

    ghost used_after = { λ p. p.used };

    ghost may_drop = { λ p. is_removal p.change };

    fn part_stamp(&self, part: u64, of: u64) -> u64 {
        if part != 0 {
            return self.base_stamp;
        }
        match find_row(self.rows.as_slice(), of) {
            Some((stamp, _)) => stamp,
            None => 0,
        }
    }

    fn input_count(&self, node: Node) -> usize {
        match node.kind {
            Kind::Space => 1,
            Kind::Group => 0,
            Kind::Check => 0,
            Kind::Verdict => 2,
        }
    }

    fn input_at(&self, node: Node, i: usize) -> Key {
        match node.kind {
            Kind::Space => Key::Part(1, 0),
            Kind::Group => unreachable!(),
            Kind::Check => unreachable!(),
            Kind::Verdict => {
                if i == 0 {
                    Key::Part(0, node.test)
                } else {
                    Key::Output(TENS, 0)
                }
            }
        }
    }

    fn used_count(&self) -> usize {
        self.rows.len() + 1
    }

    fn used_at(&self, i: usize) -> Node {
        self.count();
        if i == 0 {
            TENS
        } else {
            cell(self.rows[i - 1].name)
        }
    }

    fn is_used(&self, node: Node) -> bool {
        if is_same_node(node, TENS) {
            return true;
        }
        is_cell(self.rows.as_slice(), node)
    }

    fn user_count(&self, node: Node) -> usize {
        if is_same_node(node, TENS) {
            self.rows.len()
        } else {
            0
        }
    }

    fn user_at(&self, node: Node, i: usize) -> Node {
        self.count();
        if is_same_node(node, TENS) {
            cell(self.rows[i].name)
        } else {
            unreachable!()
        }
    }

    fn touched_count(&self) -> usize {
        match self.touched {
            Some(_) => 1,
            None => 0,
        }
    }

    fn touched_at(&self, _i: usize) -> Node {
        self.count();
        match self.touched {
            Some(node) => node,
            None => unreachable!(),
        }
    }

    fn is_same(a: &u64, b: &u64) -> bool {
        *a == *b
    }

    fn give(&self, _alloc: Global, node: Node) -> Result<u64, AllocError> {
        match node.kind {
            Kind::Space => Ok(self.base),
            Kind::Group => unreachable!(),
            Kind::Check => unreachable!(),
            Kind::Verdict => match find_row(self.rows.as_slice(), node.test) {
                Some((_, value)) => Ok(value),
                None => unreachable!(),
            },
        }
    }

    fn is_given(&self, node: Node, given: &u64) -> bool {
        match node.kind {
            Kind::Space => *given == self.base,
            Kind::Group => false,
            Kind::Check => false,
            Kind::Verdict => match find_row(self.rows.as_slice(), node.test) {
                Some((_, value)) => *given == value,
                None => false,
            },
        }
    }

    fn give_again(_alloc: Global, given: &u64) -> Result<u64, AllocError> {
        Ok(*given)
    }

    fn run(
        alloc: Global,
        node: Node,
        given: &u64,
        _keys: &[Key],
        values: &[&u64],
    ) -> Result<Vec<Output<u64>>, AllocError> {
        let mut outputs = Vec::new(alloc);
        outputs.push(Output {
            name: 0,
            stamp: 0,
            value: result(node.kind, *given, values),
        })?;
        Ok(outputs)
    }

    fn keeps(&self, node: Node) -> bool {
        self.count();
        match node.kind {
            Kind::Space => true,
            Kind::Group => false,
            Kind::Check => false,
            Kind::Verdict => find_row(self.rows.as_slice(), node.test).is_some(),
        }
    }

    fn prepare(
        &mut self,
        _alloc: Global,
        edit: Change,
        spent: bool,
    ) -> Result<Prepared, SheetFault> {
        if let Change::Remove(name) = edit {
            if find_row(self.rows.as_slice(), name).is_none() {
                return Err(SheetFault::Missing);
            }
        }
        if spent {
            return Err(SheetFault::Spent);
        }
        match self.rows.reserve(1) {
            Ok(()) => Ok(Prepared {
                change: edit,
                used: self.rows.len() + 2,
            }),
            Err(_) => Err(SheetFault::OutOfMemory),
        }
    }

    fn used_after(prepared: &Prepared) -> usize {
        prepared.used
    }

    fn may_drop(prepared: &Prepared) -> bool {
        matches!(prepared.change, Change::Remove(_))
    }

    fn refused_memory(_prepared: &Prepared, _error: AllocError) -> SheetFault {
        SheetFault::OutOfMemory
    }

    fn commit(&mut self, prepared: Prepared, number: u64) {
        self.last = number;
        match prepared.change {
            Change::Put(name, value) => {
                self.touched = Some(cell(name));
                put(&mut self.rows, name, value, number)
            }
            Change::Remove(name) => {
                self.touched = Some(cell(name));
                remove(&mut self.rows, name)
            }
            Change::SetBase(value) => {
                self.touched = None;
                if value != self.base {
                    self.touched = Some(TENS);
                    self.base = value;
                    self.base_stamp = number;
                }
            }
        }
    }

    ghost same_exact = { numbers_exact };

    ghost sound = { λ s _. sheet_sound s };

    ghost since_same = { since_same };

    ghost since_edited = { since_changed };

    ghost given_stays = { given_again };

    ghost valid_edited = { changes_valid };

    ghost commits_edit = { prepared_changes };

    ghost used_there = { λ s _. all_there s.rows.items };

    ghost used_closed = { λ s _ n. inputs_used s.rows.items n };

    ghost used_kept = { λ s _ n. cells_kept s.rows.items n };

    ghost keeps_all = { changes_keep };

    ghost users_are = { λ s _. users_listed s };

    ghost users_read = { λ s _. users_read s };

    ghost falls = { λ s _. ranks_fall s };

    ghost touches_only = { changes_touch };

    ghost goes_on = { λ s t e number _. changes_go_on s t e number };
}
