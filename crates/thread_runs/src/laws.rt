//! Laws of the definitions.
ghost use Rattle.std.specs.Prelude.{List};
ghost use Rattle.thread_runs.specs.declared.value.Value.{Value};
ghost use Rattle.thread_runs.specs.declared.instruction.Line.{Line};
ghost use Rattle.thread_runs.specs.LineByLine.{GoesLineByLine};
ghost use Rattle.thread_runs.specs.Machine.{State};

/// The run of a thread goes over its lines one by one.
pub fn runs_go_line_by_line()
    ensures { (lines : List Line) (first : State) (values : List Value)
        → GoesLineByLine lines first values }
{}
