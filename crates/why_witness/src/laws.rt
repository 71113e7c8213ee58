//! A law of refusals.

ghost use Rattle.std.specs.Prelude.{ℕ};
ghost use Rattle.binding_graph.specs.declared.resolved.CheckCode.{CheckCode};
ghost use Rattle.cat_machine.specs.declared.column.Column.{Column};
ghost use Rattle.why_witness.specs.Refusals.{HasOneWitness};

/// A check of an expression refuses a candidate for one reason, or not at all.
pub fn refusal_is_one()
    ensures { (check : CheckCode) (values : Column) (k : ℕ) → HasOneWitness check values k }
{}
