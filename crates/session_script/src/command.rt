//! The commands of a script.

use crate::request::{Request, ScriptText};

/// Why a line is no command.
#[derive(Clone, Copy, Debug, PartialEq, Eq)]
pub enum ScriptRule {
    /// Q1: the line's first word is no command, or its other words do not fit. No text follows.
    NoCommand,
    /// Q2: the script ends before the line `.` that ends the text.
    NoTextEnd,
}

impl ScriptRule {
    ghost use Rattle.std.specs.Prelude.{◌≡◌};
    ghost use Rattle.session_script.specs.Rules.{script_rule_number};

    /// The number that the refusal is printed with, behind a `Q`.
    pub fn number(self) -> u8
        ensures { result ≡ script_rule_number self }
    {
        match self {
            ScriptRule::NoCommand => 1,
            ScriptRule::NoTextEnd => 2,
        }
    }
}

/// A command of a script.
#[derive(Drop)]
pub enum Command {
    /// A request, and its text: its first 65,537 bytes, or none where the request has no text.
    Asked { request: Request, text: ScriptText },
    /// What stands there is no command.
    Refused(ScriptRule),
}
