//! Numbers and edits that are drawn from a seed.

use crate::walk::mirror::Mirror;
use bench_texts::Edit;
use std::alloc::{AllocError, Global};
use tests_cases::edits;

/// The state of a linear congruential generator, with the constants of Knuth's MMIX.
#[derive(Clone, Copy)]
pub struct Draw {
    state: u64,
}

impl Draw {
    /// The first state, which is the seed.
    pub fn new(seed: u64) -> Draw {
        Draw { state: seed }
    }

    /// A number below `count`, and 0 where that is 0.
    pub fn below(&mut self, count: u64) -> u64 {
        self.state = self
            .state
            .wrapping_mul(6_364_136_223_846_793_005)
            .wrapping_add(1_442_695_040_888_963_407);
        let high = self.state >> 33;
        if count == 0 { 0 } else { high % count }
    }
}

const TESTS: [&[u8]; 2] = [
    b"PPC MP\n{ 0:r2=x; 0:r4=y; 1:r2=y; 1:r4=x; }\nP0 | P1 ;\nli r1,1 | lwz r1,0(r2) ;\nstw r1,0(r2) | lwz r3,0(r4) ;\nli r3,1 | ;\nstw r3,0(r4) | ;\nexists (1:r1=1 /\\ 1:r3=0)\n",
    b"PPC LB\n{ 0:r2=x; 0:r4=y; 1:r2=y; 1:r4=x; }\nP0 | P1 ;\nlwz r1,0(r2) | lwz r1,0(r2) ;\nli r3,1 | li r3,1 ;\nstw r3,0(r4) | stw r3,0(r4) ;\nexists (0:r1=1 /\\ 1:r1=1)\n",
];

const NAMES: [&[u8]; 2] = [b"MP", b"LB"];

const THREADS: [&[u8]; 3] = [
    b"lwz r1,0(r2); lwz r3,0(r4)",
    b"lwz r1,0(r2); sync; lwz r3,0(r4)",
    b"li r1,1; stw r1,0(r2); sync; li r3,1; stw r3,0(r4)",
];

const MODELS: [&[u8]; 2] = [
    b"let a = po\nlet b = a | rf\nacyclic b | fr | co as sc\n",
    b"let f = sync\nlet g = f | rf | fr | co\nacyclic po-loc | rf | fr | co\nacyclic g | (rf;f)\nflag ~empty rf as seen\n",
];

const MODEL_NAMES: [&[u8]; 2] = [b"m", b"n"];

const ITEMS: [&[u8]; 6] = [
    b"let a = po",
    b"let a = po | po",
    b"let f = sync | lwsync",
    b"let b = a",
    b"acyclic a | rf",
    b"let g = q",
];

const CONDITIONS: [&[u8]; 2] = [b"exists (1:r1=1)", b"forall (0:r1=1 \\/ 1:r3=0)"];

fn pick(draw: &mut Draw, texts: &[&'static [u8]]) -> &'static [u8] {
    let index = draw.below(texts.len() as u64) as usize;
    match texts.get(index) {
        Some(text) => text,
        None => b"",
    }
}

/// The names of the tests and of the models that edits are drawn of.
pub fn names() -> (&'static [&'static [u8]], &'static [&'static [u8]]) {
    (&NAMES, &MODEL_NAMES)
}

/// An edit that is drawn: its word, with the name, the number and the text that it takes.
#[derive(Clone, Copy)]
pub struct Drawn {
    verb: &'static str,
    name: &'static [u8],
    number: u64,
    text: &'static [u8],
}

impl Drawn {
    /// The edit.
    pub fn edit(&self, alloc: Global) -> Result<Edit, AllocError> {
        let text = Vec::from_slice(alloc, self.text)?;
        edits::named(alloc, self.verb, self.name, self.number, text)
    }
}

/// An edit in words.
fn in_words(verb: &'static str, name: &'static [u8], number: u64, text: &'static [u8]) -> Drawn {
    Drawn {
        verb,
        name,
        number,
        text,
    }
}

/// Draws one of the rarer edits of a model or a test.
fn draw_rare(draw: &mut Draw, model: &'static [u8]) -> Drawn {
    match draw.below(8) {
        0 => in_words("drop-test", pick(draw, &NAMES), 0, b""),
        1 => in_words("drop-model", model, 0, b""),
        _ => in_words("locations", pick(draw, &NAMES), 0, b"locations [0:r1; x;]"),
    }
}

/// Draws an edit.
pub fn draw_edit(draw: &mut Draw, mirror: &Mirror) -> Drawn {
    let model = pick(draw, &MODEL_NAMES);
    let number = draw.below(1000);
    let item = mirror.item_number(model, number);
    match draw.below(12) {
        0 => in_words("test", b"", 0, pick(draw, &TESTS)),
        1 => in_words("model", model, 0, pick(draw, &MODELS)),
        2 => {
            let test = pick(draw, &NAMES);
            let thread = draw.below(3);
            in_words("thread", test, thread, pick(draw, &THREADS))
        }
        3 => {
            let test = pick(draw, &NAMES);
            in_words("condition", test, 0, pick(draw, &CONDITIONS))
        }
        4 => draw_rare(draw, model),
        5 => in_words("insert", model, item, pick(draw, &ITEMS)),
        6 => in_words("remove", model, item, b""),
        _ => in_words("item", model, item, pick(draw, &ITEMS)),
    }
}
