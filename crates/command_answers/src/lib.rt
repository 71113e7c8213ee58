//! The bench as a library: a model and a test from bytes to a log, and what the program's words ask
//! for: tables, differences, reasons and drawings of files. Read specs/Answer first, then
//! specs/Reports and specs/Whys.
#![tactic(auto)]

mod cut;
mod fault;
mod file;
pub mod laws;
mod listening;
mod progress;
mod reading;
mod report;
mod stream;
mod texts;
mod told;

pub use command_line::{
    Drawn, Form, Pictures, ResultFormat, RunEnd, SessionFault, UsageFault, exit_status, form_of,
};
pub use fault::EvalFault;
pub use file::{TextFile, model_stem, put_fault};
pub use listening::{AnswerListener, HeardCommand, NoListener, RefusalTeller};
pub use progress::ProgressTeller;
pub use reading::{
    NamedModel, ReadModels, model_refusal_lines, read_models, refusal_lines, test_refusal_lines,
};
pub use report::{Report, difference_report, table_report, write_report};
pub use session_answers::{NoProgress, Progress, ProgressListener};
pub use session_script::{
    ByteSink, ByteSource, CallFailed, MemorySink, MemorySource, OfRead, OfWrite, ReadFault,
    read_prefix, write_whole,
};
pub use stream::{
    eval_stream, eval_stream_heard, read_text, write_answer, write_drawings, write_why,
};
pub use texts::{draw_report, draw_request, eval, why_report};
pub use told::model_fault;
pub use why_forbidden::{Asked, DrawRequest, Format};
