//! One candidate execution, shown as plain data.
ghost use Rattle.std.specs.Prelude.{◌≤◌, length};

use dataflow::Dependencies;
use ppc_semantics::Value;
use run_combinations::Event;

/// One candidate as plain data: a candidate execution in the sense of Alglave, Maranget and
/// Tautschnig, Herding Cats, TOPLAS 36(2), 2014.
#[derive(Drop)]
pub struct Execution {
    /// The events, numbered as those of a combination.
    pub events: Vec<Event>,
    /// The dependencies, by the numbers of their events.
    pub dependencies: Dependencies,
    /// For each load in event order, the number of the store that it reads.
    pub reads_from: Vec<u8>,
    /// The stores of each location after one another, in coherence order.
    pub coherence: Vec<u8>,
    /// For each thread, what the registers hold at the end.
    pub registers: Vec<[Value; 32]>,
    /// There are at most 128 events.
    pub ghost few: { length events.items ≤ 128 },
}
