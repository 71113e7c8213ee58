//! A table and the differences of made-up outcomes: a message that is passed from one thread to
//! another under two models, and a test whose cells are open and none.

use litmus_ppc::{Name, Quantifier};
use outcome_texts::{Shown, TestPair, TestRow, counts_text, difference_text, log_text, table_text};
use std::alloc::{AllocError, Global};
use std::io;
use verdict::{CountedState, Evaluation, FinalValue, Observation, Outcome, OutcomeResult};

fn state(alloc: Global, flag: i32, data: i32) -> Result<CountedState, AllocError> {
    Ok(CountedState {
        values: vec![in alloc; FinalValue::Number(flag), FinalValue::Number(data)]?,
        text: format!(in alloc; "1:r1={flag}; 1:r3={data};")?.into_bytes(),
        count: 1,
        holds: flag == 1 && data == 0,
    })
}

fn outcome(alloc: Global, found: Evaluation) -> Result<Outcome, AllocError> {
    Ok(Outcome {
        kind: Quantifier::Exists,
        condition: Vec::from_slice(alloc, b"exists (1:r1=1 /\\ 1:r3=0)")?,
        result: OutcomeResult::Evaluated(found),
    })
}

/// The message is not passed over its flag.
fn strong(alloc: Global) -> Result<Outcome, AllocError> {
    let found = Evaluation {
        states: vec![in alloc;
            state(alloc, 0, 0)?,
            state(alloc, 0, 1)?,
            state(alloc, 1, 1)?,
        ]?,
        positive: 0,
        negative: 3,
        observation: Observation::Never,
        ok: false,
        flags: Vec::new(alloc),
    };
    outcome(alloc, found)
}

/// The flag can be seen before the message.
fn weak(alloc: Global) -> Result<Outcome, AllocError> {
    let found = Evaluation {
        states: vec![in alloc;
            state(alloc, 0, 0)?,
            state(alloc, 0, 1)?,
            state(alloc, 1, 0)?,
            state(alloc, 1, 1)?,
        ]?,
        positive: 1,
        negative: 3,
        observation: Observation::Sometimes,
        ok: true,
        flags: Vec::new(alloc),
    };
    outcome(alloc, found)
}

fn show_text<R: Print + AllocGlobal>(rt: &R, text: Vec<u8>) -> io::Result<()> {
    match String::from_utf8(text) {
        Ok(text) => rt.print(text),
        Err(_) => println!(rt; "no text"),
    }
}

fn show_table<R: Print + AllocGlobal>(
    rt: &R,
    first: Shown<'_>,
    second: Shown<'_>,
) -> io::Result<()> {
    let alloc = rt.alloc();
    let models = vec![in alloc; Name::new(alloc, b"sc")?, Name::new(alloc, b"power")?]?;
    let passing = TestRow {
        name: b"MP",
        cells: vec![in alloc; first, second]?,
    };
    let unknown = TestRow {
        name: b"CoWR",
        cells: vec![in alloc; Shown::Open, Shown::NoCell]?,
    };
    let rows = vec![in alloc; passing, unknown]?;
    show_text(rt, table_text(alloc, &models, &rows)?)
}

fn show_differences<R: Print + AllocGlobal>(
    rt: &R,
    first: Shown<'_>,
    second: Shown<'_>,
) -> io::Result<()> {
    let alloc = rt.alloc();
    let tests = vec![in alloc;
        TestPair {
            name: b"MP",
            first,
            second
        },
        TestPair {
            name: b"MP",
            first,
            second: first
        },
        TestPair {
            name: b"CoWR",
            first: Shown::Open,
            second: Shown::NoCell
        },
        TestPair {
            name: b"CoWR",
            first: Shown::Open,
            second: Shown::Open
        },
    ]?;
    show_text(rt, difference_text(alloc, &tests)?)
}

/// Prints the table, the differences, the counts and the logs.
pub fn show<R: Print + AllocGlobal>(rt: &R) -> io::Result<()> {
    let strong = strong(rt.alloc())?;
    let weak = weak(rt.alloc())?;
    let first = Shown::Settled(&strong);
    let second = Shown::Settled(&weak);
    show_table(rt, first, second)?;
    show_differences(rt, first, second)?;
    show_text(rt, counts_text(rt.alloc(), second)?)?;
    show_text(rt, counts_text(rt.alloc(), Shown::Open)?)?;
    show_text(rt, counts_text(rt.alloc(), Shown::NoCell)?)?;
    show_text(rt, log_text(rt.alloc(), b"MP", first)?)?;
    show_text(rt, log_text(rt.alloc(), b"MP", Shown::Open)?)?;
    show_text(rt, log_text(rt.alloc(), b"MP", Shown::NoCell)?)
}
