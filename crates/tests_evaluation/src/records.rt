//! Lines for programs of a made-up outcome and of a refused one, and the texts that stand in such
//! lines and in a page. The strings that are wanted come from RFC 8259 and from the entities of
//! HTML.

use candidates::EvalRefusal;
use escaped_texts::{Attribute, put_element, put_escaped, put_field, put_number, put_string};
use outcome_lines::{Subject, put_eval_json};
use std::alloc::{AllocError, Global};
use std::io;
use text_values::{Name, Quantifier};
use verdict::{CountedState, Evaluation, FinalValue, Observation, Outcome, OutcomeResult, Refusal};

fn state(alloc: Global, value: i32, count: u64) -> Result<CountedState, AllocError> {
    Ok(CountedState {
        values: vec![in alloc; FinalValue::Number(value)]?,
        text: format!(in alloc; "1:r1={value};")?.into_bytes(),
        count,
        holds: value == 1,
    })
}

fn outcome(alloc: Global, condition: &[u8], found: OutcomeResult) -> Result<Outcome, AllocError> {
    Ok(Outcome {
        kind: Quantifier::Exists,
        condition: Vec::from_slice(alloc, condition)?,
        result: found,
    })
}

/// A register is 0 in three candidates and 1 in one, and the model has a flag.
fn evaluated(alloc: Global) -> Result<Outcome, AllocError> {
    let found = Evaluation {
        states: vec![in alloc; state(alloc, 0, 3)?, state(alloc, 1, 1)?]?,
        positive: 1,
        negative: 3,
        observation: Observation::Sometimes,
        ok: true,
        flags: vec![in alloc; Name::new(alloc, b"race")?]?,
    };
    outcome(alloc, b"exists (1:r1=1)", OutcomeResult::Evaluated(found))
}

fn show_text<R: Print + AllocGlobal>(rt: &R, text: Vec<u8>) -> io::Result<()> {
    match String::from_utf8(text) {
        Ok(text) => println!(rt; "{text}"),
        Err(_) => println!(rt; "no text"),
    }
}

fn show_lines<R: Print + AllocGlobal>(rt: &R) -> io::Result<()> {
    let alloc = rt.alloc();
    let subject = Subject {
        path: b"a.litmus",
        test: b"MP",
        model: b"power",
    };
    let refusal = OutcomeResult::Refused(Refusal::Space(EvalRefusal::TooManyEvents));
    let mut lines = Vec::new(alloc);
    put_eval_json(alloc, &mut lines, &subject, &evaluated(alloc)?)?;
    put_eval_json(alloc, &mut lines, &subject, &outcome(alloc, b"", refusal)?)?;
    match String::from_utf8(lines) {
        Ok(lines) => rt.print(lines),
        Err(_) => println!(rt; "no text"),
    }
}

fn show_strings<R: Print + AllocGlobal>(rt: &R) -> io::Result<()> {
    let cases: [&[u8]; 6] = [
        b"",
        b"http://www.example.com/image/481989943",
        b"1:r1=1 /\\ 1:r3=0",
        b"\"a\"\n\r\t",
        b"\0\x1F \x7E\x7F",
        b"\xC3\xA9\xFF",
    ];
    for bytes in cases {
        let mut text = Vec::new(rt.alloc());
        put_string(&mut text, bytes)?;
        show_text(rt, text)?;
    }
    Ok(())
}

fn show_numbers<R: Print + AllocGlobal>(rt: &R) -> io::Result<()> {
    for n in [0, 116, u64::MAX] {
        let mut text = Vec::new(rt.alloc());
        put_number(&mut text, n)?;
        show_text(rt, text)?;
    }
    Ok(())
}

fn show_fields<R: Print + AllocGlobal>(rt: &R) -> io::Result<()> {
    let cases: [&[u8]; 4] = [
        b"crates/a.litmus",
        b"1:r1=1 /\\ 1:r3=0",
        b"a\tb\nc\rd",
        b"\\t\xC3\xA9",
    ];
    for bytes in cases {
        let mut text = Vec::new(rt.alloc());
        put_field(&mut text, bytes)?;
        show_text(rt, text)?;
    }
    Ok(())
}

fn show_page_texts<R: Print + AllocGlobal>(rt: &R) -> io::Result<()> {
    let cases: [&[u8]; 4] = [
        b"MP+lwsync+addr",
        b"<img src=x onerror='f()'>",
        b"\"&amp;\t\n",
        b"a\xC3\xA9\0\x7F\r",
    ];
    for bytes in cases {
        let mut page = Vec::new(rt.alloc());
        put_escaped(&mut page, bytes)?;
        show_text(rt, page)?;
    }
    Ok(())
}

fn show_element<R: Print + AllocGlobal>(rt: &R) -> io::Result<()> {
    let attributes = [Attribute {
        name: b"data-n",
        value: b"a\" onclick=\"f()",
    }];
    let mut page = Vec::new(rt.alloc());
    put_element(&mut page, b"td", &attributes, b"</td><script>")?;
    show_text(rt, page)
}

/// Prints the lines, the texts of JSON and of fields, and those of a page.
pub fn show<R: Print + AllocGlobal>(rt: &R) -> io::Result<()> {
    show_lines(rt)?;
    show_strings(rt)?;
    show_numbers(rt)?;
    show_fields(rt)?;
    show_page_texts(rt)?;
    show_element(rt)
}
