//! What is read of a script and not yet answered.

ghost use Rattle.std.specs.Prelude.{◌≤◌, length};

use std::alloc::Global;

/// Reads a script, command by command.
#[derive(Drop)]
pub struct ScriptReader {
    pub(crate) alloc: Global,
    pub(crate) waiting: Vec<u8>,
    pub(crate) start: usize,
    pub(crate) turns: u32,
    // How many lines were read, and how many up to the line of the last command, with its words.
    pub(crate) lines: u64,
    pub(crate) command_line: u64,
    pub(crate) command_words: Vec<u8>,
    ghost in_range: { start ≤ length waiting.items },
}
