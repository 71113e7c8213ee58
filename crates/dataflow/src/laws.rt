//! Laws of the definitions.
ghost use Rattle.std.specs.Prelude.{List};
ghost use Rattle.thread_runs.specs.declared.value.Value.{Value};
ghost use Rattle.thread_runs.specs.Runs.{Thread};
ghost use Rattle.dataflow.specs.Execution.{FreeExecution, LosesNothing};

/// Whatever values its loads have, an execution reads only values of the domain.
pub fn domain_loses_nothing()
    ensures { (initial : List Value) (threads : List Thread) (e : FreeExecution)
        → LosesNothing initial threads e }
{}
