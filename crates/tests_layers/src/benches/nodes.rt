//! The nodes of a sheet, and what running one makes.

ghost use Rattle.std.specs.Prelude.{◌≡◌, map};
ghost use Rattle.memo_core.specs.Tests.{has_node};
ghost use Rattle.tests_layers.specs.Sheet.{cell_of, cells_of, first_of, result_of};

use crate::benches::rows::Row;
use memo_core::keys::{Kind, Node, is_same_node};

/// The node that keeps the tens of the base.
pub const TENS: Node = Node {
    kind: Kind::Space,
    test: 0,
    of: 0,
};

/// The cell of a row.
pub fn cell(name: u64) -> Node
    ensures { result ≡ cell_of name }
{
    Node {
        kind: Kind::Verdict,
        test: name,
        of: 0,
    }
}

/// Whether a node is the cell of one of these rows.
pub fn is_cell(rows: &[Row], node: Node) -> bool
    ensures { result ≡ has_node node (cells_of rows.now) }
{
    for row in rows {
        if is_same_node(node, cell(row.name)) {
            return true;
        }
    }
    false
}

fn first(values: &[&u64]) -> u64
    ensures { result ≡ first_of (map (λ v. v.now) values.now) }
{
    if values.len() == 0 { 0 } else { *values[0] }
}

/// The value that running a node makes.
pub fn result(kind: Kind, given: u64, values: &[&u64]) -> u64
    ensures { result ≡ result_of kind given (map (λ v. v.now) values.now) }
{
    match kind {
        Kind::Space => given / 10,
        Kind::Group => 0,
        Kind::Check => 0,
        Kind::Verdict => given.wrapping_add(first(values)),
    }
}
