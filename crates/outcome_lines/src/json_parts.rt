//! The parts that lines of `--json` share.

ghost use Rattle.std.specs.Prelude.{◌≡◌, ◌++◌, OnOk};
ghost use Rattle.outcome_lines.specs.Json.{bool_text, path_front, test_front, subject_front, number_members, word_member, observation_members, refusal_member, refused_line};

use crate::record::{Subject, TextRefusal};
use escaped_texts::{put_number, put_string};
use outcome_texts::observation_word;
use std::alloc::AllocError;
use text_values::put_bytes;
use verdict::{Evaluation, Observation};

/// How a truth value is written.
#[tactic(auto, unfolding(crate::specs::Json::bool_text))]
pub fn bool_text(value: bool) -> &'static [u8]
    ensures { result.now ≡ bool_text value }
{
    if value { b"true" } else { b"false" }
}

#[tactic(auto, unfolding(crate::specs::Json::path_front))]
fn put_path_front(text: &mut Vec<u8>, path: &[u8]) -> Result<(), AllocError>
    ensures { OnOk result (text.new.items ≡ text.old.items ++ path_front path.now) }
{
    put_bytes(text, b"{\"path\":")?;
    put_string(text, path)
}

/// Appends the front of an object of a test: its path and its name. Errors: want of memory.
#[tactic(auto, unfolding(crate::specs::Json::test_front))]
pub fn put_test_front(text: &mut Vec<u8>, path: &[u8], test: &[u8]) -> Result<(), AllocError>
    ensures { OnOk result (text.new.items ≡ text.old.items ++ test_front path.now test.now) }
{
    put_path_front(text, path)?;
    put_bytes(text, b",\"test\":")?;
    put_string(text, test)
}

/// Appends the front of an object of a test under a model. Errors: want of memory.
#[tactic(auto, unfolding(crate::specs::Json::subject_front))]
pub fn put_subject_front(text: &mut Vec<u8>, subject: &Subject<'_>) -> Result<(), AllocError>
    ensures { OnOk result (text.new.items ≡ text.old.items ++ subject_front subject.now) }
{
    put_test_front(text, subject.path, subject.test)?;
    put_bytes(text, b",\"model\":")?;
    put_string(text, subject.model)
}

#[tactic(auto, unfolding(crate::specs::Json::number_members))]
fn put_number_members(text: &mut Vec<u8>, positive: u64, negative: u64) -> Result<(), AllocError>
    ensures { OnOk result (text.new.items ≡ text.old.items ++ number_members positive negative) }
{
    put_bytes(text, b",\"positive\":")?;
    put_number(text, positive)?;
    put_bytes(text, b",\"negative\":")?;
    put_number(text, negative)
}

#[tactic(auto, unfolding(crate::specs::Json::word_member))]
fn put_word_member(text: &mut Vec<u8>, observation: Observation) -> Result<(), AllocError>
    ensures { OnOk result (text.new.items ≡ text.old.items ++ word_member observation) }
{
    put_bytes(text, b",\"observation\":")?;
    put_string(text, observation_word(observation))
}

/// Appends the observation and its counts. Errors: want of memory.
#[tactic(auto, unfolding(crate::specs::Json::observation_members))]
pub fn put_observation_members(text: &mut Vec<u8>, found: &Evaluation) -> Result<(), AllocError>
    ensures { OnOk result (text.new.items ≡ text.old.items ++ observation_members found.now) }
{
    put_word_member(text, found.observation)?;
    put_number_members(text, found.positive, found.negative)
}

/// Appends the rule of a refusal. Errors: want of memory.
#[tactic(auto, unfolding(crate::specs::Json::refusal_member))]
pub fn put_refusal_member(text: &mut Vec<u8>, rule: &[u8]) -> Result<(), AllocError>
    ensures { OnOk result (text.new.items ≡ text.old.items ++ refusal_member rule.now) }
{
    put_bytes(text, b",\"refused\":")?;
    put_string(text, rule)
}

/// Appends the line of a refused text. Errors: want of memory.
#[tactic(auto, unfolding(crate::specs::Json::refused_line))]
pub fn put_refused_line(text: &mut Vec<u8>, refusal: &TextRefusal<'_>) -> Result<(), AllocError>
    ensures { OnOk result (text.new.items ≡ text.old.items ++ refused_line refusal.now) }
{
    put_path_front(text, refusal.path)?;
    put_refusal_member(text, refusal.rule)?;
    put_bytes(text, b",\"offset\":")?;
    put_number(text, refusal.offset)?;
    put_bytes(text, b",\"line\":")?;
    put_number(text, refusal.line)?;
    put_bytes(text, b",\"column\":")?;
    put_number(text, refusal.column)?;
    put_bytes(text, b"}\n")
}
