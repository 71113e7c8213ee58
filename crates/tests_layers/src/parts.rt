//! Makes the edits that `parts.txt` lists, one a line, on texts with their parts: each line is
//! printed with the rows that are made beside the parts, where the number after the last one stands
//! for that of the edit, and with the number of nodes that it touches. Then they are put in place
//! under the number in front of the line. The answers that are wanted were written by hand.

use crate::print_answer;
use crate::texts::answers::put_result;
use bench_edits::{EditedParts, commit_parts, prepare_parts, touched_nodes};
use bench_nodes::{ItemRow, ModelRow, TestRow};
use bench_parts::Parts;
use bench_texts::{Edit, EditFault, Texts};
use memo_core::keys::Kind;
use std::alloc::{AllocError, Global};
use std::rt::Files;
use std::{fs, io};
use tests_cases::{edits, text_of};
use text_values::{put_bytes, put_decimal};

fn put_stamp(answer: &mut Vec<u8>, stamp: u64) -> Result<(), AllocError> {
    put_bytes(answer, b" ")?;
    put_decimal(answer, stamp)
}

fn put_test(answer: &mut Vec<u8>, row: &TestRow, locations: usize) -> Result<(), AllocError> {
    put_bytes(answer, b"test: condition")?;
    put_stamp(answer, row.condition)?;
    put_bytes(answer, b", observed")?;
    put_stamp(answer, row.observed)?;
    put_bytes(answer, b", locations")?;
    put_stamp(answer, row.locations)?;
    put_bytes(answer, b" of")?;
    put_stamp(answer, locations as u64)?;
    put_bytes(answer, b", init")?;
    put_stamp(answer, row.init)?;
    put_bytes(answer, b", threads")?;
    for stamp in &row.threads {
        put_stamp(answer, *stamp)?;
    }
    Ok(())
}

fn put_kind(answer: &mut Vec<u8>, kind: Option<&Option<Kind>>) -> Result<(), AllocError> {
    match kind {
        Some(Some(Kind::Group)) => put_bytes(answer, b" group"),
        Some(Some(Kind::Check)) => put_bytes(answer, b" check"),
        Some(Some(_)) => put_bytes(answer, b" another kind"),
        _ => put_bytes(answer, b" none"),
    }
}

fn put_models(
    answer: &mut Vec<u8>,
    models: &[ModelRow],
    items: &[ItemRow],
    kinds: &[Option<Kind>],
    slots: usize,
) -> Result<(), AllocError> {
    put_bytes(answer, b"models:")?;
    for row in models {
        put_stamp(answer, row.stamp)?;
    }
    put_bytes(answer, b", items:")?;
    for (index, row) in items.iter().enumerate() {
        put_stamp(answer, row.stamp)?;
        put_kind(answer, kinds.get(index))?;
    }
    put_bytes(answer, b", nodes")?;
    put_stamp(answer, slots as u64)
}

/// What was made for an edit, with the stamp that stands for its number.
fn put_made(answer: &mut Vec<u8>, made: &EditedParts) -> Result<(), AllocError> {
    match made {
        EditedParts::PutTest { row, locations, .. } => put_test(answer, row, locations.len()),
        EditedParts::DropTest { .. } => put_bytes(answer, b"no test"),
        EditedParts::Models(made) => put_models(
            answer,
            &made.rows,
            &made.items.rows,
            &made.items.kinds,
            made.slots.len(),
        ),
    }
}

/// The parts, and the number of the last edit.
fn put_parts(answer: &mut Vec<u8>, parts: &Parts) -> Result<(), AllocError> {
    let table = &parts.table;
    for (index, row) in table.tests.iter().enumerate() {
        let locations = match parts.locations.get(index) {
            Some(names) => names.len(),
            None => 0,
        };
        put_test(answer, row, locations)?;
        put_bytes(answer, b"\n")?;
    }
    put_models(
        answer,
        &table.models,
        &table.items,
        &parts.kinds,
        table.slots.len(),
    )?;
    put_bytes(answer, b", last")?;
    put_stamp(answer, parts.last)
}

/// Texts with their parts.
#[derive(Drop)]
struct Stamped {
    texts: Texts,
    parts: Parts,
}

impl Stamped {
    fn new(alloc: Global) -> Self {
        Stamped {
            texts: Texts::new(alloc),
            parts: Parts::new(alloc),
        }
    }

    /// Makes an edit of that number, and tells what was made, and how many nodes it touches.
    fn edit(
        &mut self,
        alloc: Global,
        answer: &mut Vec<u8>,
        edit: &Edit,
        number: u64,
    ) -> Result<(), EditFault> {
        let prepared = self.texts.prepare_unless_spent(alloc, edit, false)?;
        let made = prepare_parts(
            alloc,
            &mut self.parts,
            self.texts.tests(),
            self.texts.models(),
            prepared.replacement(),
        )?;
        put_made(answer, &made)?;
        let touched = touched_nodes(alloc, &self.parts, &made)?;
        put_bytes(answer, b", touches")?;
        put_stamp(answer, touched.len() as u64)?;
        self.texts.commit(prepared);
        commit_parts(&mut self.parts, made, number);
        Ok(())
    }

    /// Answers a question about the parts, or an edit: its number, its word, and what it takes.
    fn answer_line(
        &mut self,
        alloc: Global,
        answer: &mut Vec<u8>,
        line: &str,
    ) -> Result<(), AllocError> {
        let (question, written) = line.split_once(" | ").unwrap_or((line, ""));
        let mut words = question.split(' ');
        let first = words.next().unwrap_or("");
        if first == "parts" {
            return put_parts(answer, &self.parts);
        }
        let verb = words.next().unwrap_or("");
        let name = words.next().unwrap_or("");
        let item = words.next().unwrap_or("").parse::<u64>().unwrap_or(0);
        let text = text_of(alloc, written)?;
        let edit = edits::named(alloc, verb, name.as_bytes(), item, text)?;
        match self.edit(alloc, answer, &edit, first.parse::<u64>().unwrap_or(0)) {
            Ok(()) => Ok(()),
            Err(fault) => put_result(answer, Err(fault)),
        }
    }
}

/// Makes each edit of the file, and answers each question.
pub fn show_all<R: Files + Print + AllocGlobal>(rt: &R) -> io::Result<()> {
    let list = fs::read_to_string(rt, "parts.txt")?;
    let mut stamped = Stamped::new(rt.alloc());
    for line in list.lines() {
        println!(rt; "{line}")?;
        if line == "fresh bench" {
            stamped = Stamped::new(rt.alloc());
        } else {
            let mut answer = Vec::new(rt.alloc());
            stamped.answer_line(rt.alloc(), &mut answer, line)?;
            print_answer(rt, answer)?;
        }
    }
    Ok(())
}
