//! The script of a session: where its bytes come from, and the commands that it holds. Read
//! specs/Lines first, then Words, Requests and Commands.
#![tactic(auto)]

mod command;
mod parse;
mod reader;
mod request;
mod sink;
mod source;
mod state;
mod words;

pub use command::{Command, ScriptRule};
pub use request::{Names, Request, ScriptText};
pub use sink::{ByteSink, MemorySink, OfWrite, write_whole};
pub use source::{ByteSource, CallFailed, MAX_TURNS, MemorySource, OfRead, ReadFault, read_prefix};
pub use state::ScriptReader;
pub use words::number_of;
