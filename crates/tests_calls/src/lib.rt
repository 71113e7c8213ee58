//! Calls each public call of docs/CALLS.md, by its name and signature, and prints what it answers.
//! The text that is wanted was written by hand, from docs/FORMATS.md and the rules of the bench.
#![tactic(auto)]

ghost use Rattle.std.specs.Prelude.{◌≡◌, ◌<◌};

use base_env::base;
use bench_instance::StampedTexts;
use bench_texts::{Edit, EditFault, Texts};
use bench_workers::{Gate, NoGate, Tally, with_workers, work};
use binding_graph::{Input, Resolved, inputs_of, resolve, used};
use bit_relations::{EventSet, Rel, lanes};
use board::Board;
use candidates::{Space, space};
use cat_eval::{Column, eval_check, eval_group, rounds};
use cat_syntax::{CatFault, print_item, print_model, read_item, read_model};
use cells::bench::Bench;
use cells::events::{Event, Reply};
use cells::job::{Done, Job};
use cells::shown::Shown;
use cells::texts::CellTexts;
use compare_report::{counts_text, difference_text, log_text, outcome_log, table_text};
use dataflow::links;
use desk::{
    Accepted, BoardTexts, Desk, DeskFault, DeskSeed, Naming, OpenedDesk, Posted, Refusals, Viewer,
};
use litmus_ppc::{
    LitmusFault, Test, print_test, read_cond, read_init, read_locations, read_test, read_thread,
};
use litmusbench::{
    ByteSink, ByteSource, Form, MemorySink, MemorySource, OfRead, OfWrite, SessionFault,
    UsageFault, eval, eval_stream, form_of, session,
};
use memo_core::claims::{ClaimFault, Finish};
use memo_core::keys::Node;
use memo_graph::{eval_cell, fixtures};
use ppc_semantics::{Value, domain, runs};
use relation_columns::Cursor;
use std::alloc::{AllocError, Global};
use std::io;
use std::marker::Brand;
use std::simd::prelude::*;
use std::sync::Wait;
use std::thread::Threads;
use text_values::{Name, put_between, put_bytes, put_decimal};
use value_store::{Opened, Store, StoreName};
use verdict::{Outcome, OutcomeResult, outcome};

const COWR: &[u8] =
    b"PPC CoWR\n{ 0:r2=x; }\nP0 ;\nli r1,1 ;\nstw r1,0(r2) ;\nlwz r3,0(r2) ;\nexists (0:r3=0)\n";

const MP: &[u8] =
    b"PPC MP\n{ 0:r2=x; 0:r4=y; 1:r2=y; 1:r4=x; }\nP0 | P1 ;\nli r1,1 | lwz r1,0(r2) ;\nstw r1,0(r2) | lwz r3,0(r4) ;\nli r3,1 | ;\nstw r3,0(r4) | ;\nexists (1:r1=1 /\\ 1:r3=0)\n";

// Its second thread loads, branches on the value, and has an `isync` before it loads again.
const BRANCH: &[u8] =
    b"PPC MP+lwsync+ctrlisync\n{ 0:r2=x; 0:r4=y; 1:r2=y; 1:r4=x; }\nP0 | P1 ;\nli r1,1 | lwz r1,0(r2) ;\nstw r1,0(r2) | cmpw r1,r1 ;\nlwsync | beq LC00 ;\nli r3,1 | LC00: isync ;\nstw r3,0(r4) | lwz r3,0(r4) ;\nexists (1:r1=1 /\\ 1:r3=0)\n";

// Each thread stores one more than it loads.
const INCREMENTS: &[u8] =
    b"PPC LB+incs\n{ 0:r2=x; 0:r4=y; 1:r2=y; 1:r4=x; }\nP0 | P1 ;\nlwz r1,0(r2) | lwz r1,0(r2) ;\naddi r3,r1,1 | addi r3,r1,1 ;\nstw r3,0(r4) | stw r3,0(r4) ;\nexists (0:r1=1 /\\ 1:r1=1)\n";

// The last command names no test, so it is refused.
const SCRIPT: &[u8] = b"model sc\nacyclic po|rf|fr|co as sc\n.\nitems sc\ndrop test MQ\n";

// Prints the answer of a call behind its name.
fn tell<R: Print>(rt: &R, call: &str, answer: &[u8]) -> io::Result<()> {
    if answer.is_empty() {
        return println!(rt; "{call}: nothing");
    }
    match str::from_utf8(answer) {
        Ok(answer) => println!(rt; "{call}: {answer}"),
        Err(_) => println!(rt; "{call}: no text"),
    }
}

fn word_of(holds: bool) -> &'static [u8] {
    if holds { b"yes" } else { b"no" }
}

fn tell_whether<R: Print>(rt: &R, call: &str, holds: bool) -> io::Result<()> {
    tell(rt, call, word_of(holds))
}

fn tell_number<R: Print>(rt: &R, call: &str, number: u64) -> io::Result<()> {
    println!(rt; "{call}: {number}")
}

// ---- relations

// Prints the events of a set, rising.
fn tell_set<R: Print + AllocGlobal>(rt: &R, call: &str, set: &EventSet) -> io::Result<()> {
    let mut answer = Vec::new(rt.alloc());
    for event in 0..set.count() {
        if set.contains(event) {
            put_decimal(&mut answer, event as u64)?;
        }
    }
    tell(rt, call, &answer)
}

// Appends the pairs from an event, with a blank between two.
fn put_row(answer: &mut Vec<u8>, relation: &Rel, from: usize) -> Result<(), AllocError> {
    for to in 0..relation.count() {
        if from < relation.count() && relation.contains(from, to) {
            put_between(answer, b" ", answer.len())?;
            put_decimal(answer, from as u64)?;
            put_decimal(answer, to as u64)?;
        }
    }
    Ok(())
}

// Prints the pairs of a relation, rising.
fn tell_pairs<R: Print + AllocGlobal>(rt: &R, call: &str, relation: &Rel) -> io::Result<()> {
    let mut answer = Vec::new(rt.alloc());
    for from in 0..relation.count() {
        put_row(&mut answer, relation, from)?;
    }
    tell(rt, call, &answer)
}

// The events `first` and `second` of three.
fn pair_set(first: usize, second: usize) -> EventSet
    requires first { first < 3 }
    requires second { second < 3 }
    ensures { result.count ≡ 3 }
{
    let mut set = EventSet::empty(3);
    set.insert(first);
    set.insert(second);
    set
}

// The pairs (0,1) and (1,2) of three events.
fn chain() -> Rel
    ensures { result.count ≡ 3 }
{
    let mut relation = Rel::empty(3);
    relation.insert(0, 1);
    relation.insert(1, 2);
    relation
}

fn show_sets<R: Print + AllocGlobal>(rt: &R) -> io::Result<()> {
    let low = pair_set(0, 1);
    let high = pair_set(1, 2);
    tell_set(rt, "EventSet::union", &low.union(&high))?;
    tell_set(rt, "EventSet::inter", &low.inter(&high))?;
    tell_set(rt, "EventSet::minus", &low.minus(&high))?;
    tell_set(rt, "EventSet::complement", &low.complement())?;
    tell_whether(rt, "EventSet::is_empty", low.is_empty())?;
    tell_whether(rt, "EventSet::contains", low.contains(2))
}

fn show_made<R: Print + AllocGlobal>(rt: &R) -> io::Result<()> {
    let low = pair_set(0, 1);
    let high = pair_set(1, 2);
    let chain = chain();
    let both = Rel::product(&low, &high);
    tell_pairs(rt, "Rel::product", &both)?;
    tell_pairs(rt, "Rel::on", &Rel::on(&low))?;
    tell_pairs(rt, "Rel::inter", &chain.inter(&both))?;
    tell_pairs(rt, "Rel::minus", &both.minus(&chain))?;
    tell_pairs(rt, "Rel::restrict", &chain.restrict(&low))
}

fn show_closures<R: Print + AllocGlobal>(rt: &R) -> io::Result<()> {
    let chain = chain();
    let identity = Rel::identity(3);
    tell_pairs(rt, "Rel::identity", &identity)?;
    tell_pairs(rt, "Rel::union", &chain.union(&identity))?;
    tell_pairs(rt, "Rel::complement", &chain.complement())?;
    tell_pairs(rt, "Rel::compose", &chain.compose(&chain))?;
    tell_pairs(rt, "Rel::inverse", &chain.inverse())?;
    tell_pairs(rt, "Rel::plus", &chain.plus())?;
    tell_pairs(rt, "Rel::star", &chain.star())?;
    tell_pairs(rt, "Rel::opt", &chain.opt())
}

fn show_asked<R: Print>(rt: &R) -> io::Result<()> {
    let chain = chain();
    tell_whether(rt, "Rel::is_empty", chain.is_empty())?;
    tell_whether(rt, "Rel::is_irreflexive", chain.is_irreflexive())?;
    tell_whether(rt, "Rel::is_acyclic", chain.is_acyclic())?;
    tell_whether(rt, "Rel::contains", chain.contains(1, 2))
}

// The lanes of odd numbers have the bit 0 set.
fn show_join<R: Print + AllocGlobal>(rt: &R) -> io::Result<()> {
    let select = u64x8::from_slice(&[0, 1, 2, 3, 4, 5, 6, 7]);
    let joined = lanes::join(u64x8::splat(8), select, 0, 5);
    let mut words = [0_u64; 8];
    joined.copy_to_slice(&mut words);
    let mut answer = Vec::new(rt.alloc());
    for (index, word) in words.iter().enumerate() {
        put_between(&mut answer, b" ", index)?;
        put_decimal(&mut answer, *word)?;
    }
    tell(rt, "lanes::join", &answer)
}

fn show_relations<R: Print + AllocGlobal>(rt: &R) -> io::Result<()> {
    println!(rt; "# Relations")?;
    show_sets(rt)?;
    show_made(rt)?;
    show_closures(rt)?;
    show_asked(rt)?;
    show_join(rt)
}

// ---- texts

fn put_refusal(
    answer: &mut Vec<u8>,
    letter: &[u8],
    number: u8,
    offset: usize,
) -> Result<(), AllocError> {
    put_bytes(answer, letter)?;
    put_decimal(answer, u64::from(number))?;
    put_bytes(answer, b" at ")?;
    put_decimal(answer, offset as u64)
}

// Prints the number and offset of a refused text of a test.
fn tell_test_fault<R: Print + AllocGlobal>(
    rt: &R,
    call: &str,
    fault: LitmusFault,
) -> io::Result<()> {
    let mut answer = Vec::new(rt.alloc());
    match fault {
        LitmusFault::Refused { rule, offset } => {
            put_refusal(&mut answer, b"L", rule.number(), offset)?;
        }
        LitmusFault::OutOfMemory(_) => put_bytes(&mut answer, b"out of memory")?,
    }
    tell(rt, call, &answer)
}

// Prints the number and offset of a refused text of a model.
fn tell_model_fault<R: Print + AllocGlobal>(rt: &R, call: &str, fault: CatFault) -> io::Result<()> {
    let mut answer = Vec::new(rt.alloc());
    match fault {
        CatFault::Refused { rule, offset } => {
            put_refusal(&mut answer, b"C", rule.number(), offset)?;
        }
        CatFault::OutOfMemory(_) => put_bytes(&mut answer, b"out of memory")?,
    }
    tell(rt, call, &answer)
}

fn show_test<R: Print + AllocGlobal>(rt: &R) -> io::Result<()> {
    match read_test(rt.alloc(), COWR) {
        Ok(test) => tell(rt, "read_test, print_test", &print_test(rt.alloc(), &test)?),
        Err(fault) => tell_test_fault(rt, "read_test", fault),
    }
}

fn show_thread<R: Print + AllocGlobal>(rt: &R) -> io::Result<()> {
    match read_thread(rt.alloc(), b"L: li r1,1; b L") {
        Ok(_) => tell(rt, "read_thread", b"read"),
        Err(fault) => tell_test_fault(rt, "read_thread", fault),
    }
}

fn show_init<R: Print + AllocGlobal>(rt: &R) -> io::Result<()> {
    match read_init(rt.alloc(), b"{ 0:r2=x; x=1; }", 1) {
        Ok(entries) => tell_number(rt, "read_init", entries.len() as u64),
        Err(fault) => tell_test_fault(rt, "read_init", fault),
    }
}

fn show_cond<R: Print + AllocGlobal>(rt: &R) -> io::Result<()> {
    match read_cond(rt.alloc(), b"exists (2:r1=0)", 2) {
        Ok(_) => tell(rt, "read_cond", b"read"),
        Err(fault) => tell_test_fault(rt, "read_cond", fault),
    }
}

fn show_locations<R: Print + AllocGlobal>(rt: &R) -> io::Result<()> {
    match read_locations(rt.alloc(), b"locations [1:r1; [x];]", 2) {
        Ok(observed) => tell_number(rt, "read_locations", observed.len() as u64),
        Err(fault) => tell_test_fault(rt, "read_locations", fault),
    }
}

fn show_model<R: Print + AllocGlobal>(rt: &R) -> io::Result<()> {
    match read_model(rt.alloc(), fixtures::SC) {
        Ok(model) => tell(
            rt,
            "read_model, print_model",
            &print_model(rt.alloc(), &model)?,
        ),
        Err(fault) => tell_model_fault(rt, "read_model", fault),
    }
}

fn show_item<R: Print + AllocGlobal>(rt: &R) -> io::Result<()> {
    match read_item(rt.alloc(), b"acyclic po | rf;co \\ fr & id") {
        Ok(item) => tell(rt, "read_item, print_item", &print_item(rt.alloc(), &item)?),
        Err(fault) => tell_model_fault(rt, "read_item", fault),
    }
}

fn show_texts<R: Print + AllocGlobal>(rt: &R) -> io::Result<()> {
    println!(rt; "# Texts")?;
    show_test(rt)?;
    show_thread(rt)?;
    show_init(rt)?;
    show_cond(rt)?;
    show_locations(rt)?;
    litmus_ppc::laws::printed_is_read();
    show_model(rt)?;
    show_item(rt)?;
    cat_syntax::laws::printed_is_read();
    Ok(())
}

// ---- executions

// The test that a text of this file means.
fn test_of(alloc: Global, text: &[u8]) -> Option<Test> {
    read_test(alloc, text).ok()
}

fn put_value(answer: &mut Vec<u8>, value: Value) -> Result<(), AllocError> {
    match value {
        Value::Number(number) => put_decimal(answer, u64::from(number)),
        _ => put_bytes(answer, b"no number"),
    }
}

// Prints the values of a test's domain.
fn show_domain<R: Print + AllocGlobal>(rt: &R, test: &Test) -> io::Result<()> {
    let Ok(found) = domain(rt.alloc(), test) else {
        return tell(rt, "domain", b"refused");
    };
    let mut answer = Vec::new(rt.alloc());
    for (index, value) in found.values.iter().enumerate() {
        put_between(&mut answer, b" ", index)?;
        put_value(&mut answer, *value)?;
    }
    tell(rt, "domain", &answer)
}

fn tell_links<R: Print + AllocGlobal>(
    rt: &R,
    name: &str,
    pairs: &[(usize, usize)],
) -> io::Result<()> {
    let mut answer = Vec::new(rt.alloc());
    for (index, (from, to)) in pairs.iter().enumerate() {
        put_between(&mut answer, b" ", index)?;
        put_decimal(&mut answer, *from as u64)?;
        put_decimal(&mut answer, *to as u64)?;
    }
    tell(rt, name, &answer)
}

// Prints how many runs the second thread has, and the dependencies of the first of them.
fn show_runs<R: Print + AllocGlobal>(rt: &R, test: &Test) -> io::Result<()> {
    let Ok(domain) = domain(rt.alloc(), test) else {
        return tell(rt, "domain", b"refused");
    };
    let found = runs(rt.alloc(), test, 1, &domain)?;
    tell_number(rt, "runs", found.len() as u64)?;
    let Some(run) = found.first() else {
        return Ok(());
    };
    let links = links(rt.alloc(), run)?;
    tell_links(rt, "links, ctrl", &links.ctrl_pairs)?;
    tell_links(rt, "links, ctrlisync", &links.ctrlisync_pairs)?;
    tell_links(rt, "links, addr", &links.addr_pairs)?;
    tell_links(rt, "links, data", &links.data_pairs)?;
    tell_links(rt, "links, need", &links.need_pairs)
}

// Prints some of the predefined names in the first execution of a space.
fn show_base<R: Print + AllocGlobal>(rt: &R, test: &Test, space: &Space) -> io::Result<()> {
    let Some(execution) = space.execution(rt.alloc(), 0)? else {
        return tell(rt, "base", b"no execution");
    };
    candidates::laws::domain_loses_nothing(test, &execution);
    let env = base(rt.alloc(), &execution)?;
    tell_pairs(rt, "base, rfe", &env.rfe_rel)?;
    tell_pairs(rt, "base, fri", &env.fri_rel)?;
    tell_pairs(rt, "base, coe", &env.coe_rel)?;
    tell_pairs(rt, "base, po-loc", &env.po_loc_rel)?;
    tell_set(rt, "base, IW", &env.iw_set)
}

fn show_executions<R: Print + AllocGlobal>(rt: &R) -> io::Result<()> {
    println!(rt; "# Executions")?;
    let Some(increments) = test_of(rt.alloc(), INCREMENTS) else {
        return tell(rt, "read_test", b"refused");
    };
    show_domain(rt, &increments)?;
    let Some(branch) = test_of(rt.alloc(), BRANCH) else {
        return tell(rt, "read_test", b"refused");
    };
    show_runs(rt, &branch)
}

// ---- models

fn tell_items<R: Print + AllocGlobal>(rt: &R, call: &str, items: &[usize]) -> io::Result<()> {
    let mut answer = Vec::new(rt.alloc());
    for (index, item) in items.iter().enumerate() {
        put_between(&mut answer, b" ", index)?;
        put_decimal(&mut answer, *item as u64)?;
    }
    tell(rt, call, &answer)
}

// The items that inputs name.
fn items_of(alloc: Global, inputs: &[Input]) -> Result<Vec<usize>, AllocError> {
    let mut items = Vec::new(alloc);
    for input in inputs {
        items.push(input.item)?;
    }
    Ok(items)
}

// The model that a text of this file means.
fn resolved_of(alloc: Global, text: &[u8]) -> Option<Resolved> {
    match read_model(alloc, text) {
        Ok(model) => resolve(alloc, &model).ok(),
        Err(_) => None,
    }
}

// Prints what `ii0` uses, how many items are used, and which names of the recursion are
// evaluated again when its last one grew.
fn show_binding<R: Print + AllocGlobal>(rt: &R) -> io::Result<()> {
    let Some(power) = resolved_of(rt.alloc(), fixtures::POWER) else {
        return tell(rt, "resolve", b"refused");
    };
    tell_number(rt, "resolve", power.items.len() as u64)?;
    let items = items_of(rt.alloc(), inputs_of(&power, 3))?;
    tell_items(rt, "inputs_of", &items)?;
    let reached = used(rt.alloc(), &power)?;
    tell_number(rt, "used", reached.len() as u64)?;
    tell_number(rt, "rounds::next", rounds::next(&power, 6, 8))
}

// Prints the values of a name, one execution after another.
fn tell_column<R: Print + AllocGlobal>(rt: &R, column: &Column) -> io::Result<()> {
    let Column::Relations(values) = column else {
        return tell(rt, "eval_group", b"sets");
    };
    let mut place = Rel::empty(0);
    let mut cursor = Cursor::new();
    for index in 0..values.len() {
        values.read(&mut cursor, index, &mut place);
        tell_pairs(rt, "eval_group", &place)?;
    }
    Ok(())
}

fn show_group<R: Print + AllocGlobal>(rt: &R, space: &Space) -> io::Result<()> {
    let Some(model) = resolved_of(rt.alloc(), b"let here = po-loc & fr^-1") else {
        return tell(rt, "resolve", b"refused");
    };
    let Some(item) = model.items.first() else {
        return tell(rt, "resolve", b"no item");
    };
    for column in &eval_group(rt.alloc(), item, space, &[])? {
        tell_column(rt, column)?;
    }
    Ok(())
}

fn put_evaluated(answer: &mut Vec<u8>, outcome: &Outcome) -> Result<(), AllocError> {
    match &outcome.result {
        OutcomeResult::Evaluated(found) => {
            put_decimal(answer, found.positive)?;
            put_bytes(answer, b" and ")?;
            put_decimal(answer, found.negative)
        }
        OutcomeResult::Refused(_) => put_bytes(answer, b"refused"),
    }
}

// Prints which executions a check keeps, and the outcome of those.
fn show_check<R: Print + AllocGlobal>(rt: &R, test: &Test, space: &Space) -> io::Result<()> {
    let alloc = rt.alloc();
    let Some(model) = resolved_of(alloc, fixtures::COHERENCE) else {
        return tell(rt, "resolve", b"refused");
    };
    let Some(item) = model.items.first() else {
        return tell(rt, "resolve", b"no item");
    };
    let kept = eval_check(alloc, item, space, &[])?;
    for holds in &kept {
        tell_whether(rt, "eval_check", *holds)?;
    }
    let mut checks = Vec::new(alloc);
    checks.push(kept.as_slice())?;
    let found = outcome(alloc, space, &test.condition, &test.observed, &checks, &[])?;
    let mut answer = Vec::new(alloc);
    put_evaluated(&mut answer, &found)?;
    tell(rt, "outcome", &answer)
}

fn show_evaluation<R: Print + AllocGlobal>(rt: &R, test: &Test) -> io::Result<()> {
    let Ok(space) = space(rt.alloc(), test) else {
        return tell(rt, "space", b"refused");
    };
    tell_number(rt, "space", space.len() as u64)?;
    show_base(rt, test, &space)?;
    show_group(rt, &space)?;
    show_check(rt, test, &space)
}

fn show_cell<R: Print + AllocGlobal>(rt: &R) -> io::Result<()> {
    let alloc = rt.alloc();
    let Some(test) = test_of(alloc, MP) else {
        return tell(rt, "read_test", b"refused");
    };
    let Ok(model) = read_model(alloc, fixtures::SC) else {
        return tell(rt, "read_model", b"refused");
    };
    let found = eval_cell(alloc, &test, &model)?;
    tell(
        rt,
        "eval_cell, outcome_log",
        &outcome_log(alloc, b"MP", &found)?,
    )
}

fn show_models<R: Print + AllocGlobal>(rt: &R) -> io::Result<()> {
    println!(rt; "# Models")?;
    show_binding(rt)?;
    let Some(test) = test_of(rt.alloc(), COWR) else {
        return tell(rt, "read_test", b"refused");
    };
    show_evaluation(rt, &test)?;
    show_cell(rt)
}

// ---- edits and values

fn put_test(alloc: Global, text: &[u8]) -> Result<Edit, AllocError> {
    let text = Vec::from_slice(alloc, text)?;
    Ok(Edit::PutTest { text })
}

fn put_model(alloc: Global, name: &[u8], text: &[u8]) -> Result<Edit, AllocError> {
    Ok(Edit::PutModel {
        model: Vec::from_slice(alloc, name)?,
        text: Vec::from_slice(alloc, text)?,
    })
}

fn show_edits<R: Print + AllocGlobal>(rt: &R) -> io::Result<()> {
    let alloc = rt.alloc();
    let mut texts = Texts::new(alloc);
    match texts.prepare(alloc, put_test(alloc, MP)?) {
        Ok(prepared) => {
            tell_number(rt, "Texts::prepare", texts.tests().len() as u64)?;
            texts.commit(prepared);
            tell_number(rt, "Texts::commit", texts.tests().len() as u64)
        }
        Err(_) => tell(rt, "Texts::prepare", b"refused"),
    }
}

// A store of one value: the second comes back.
fn fill<R: Print + Wait, K: StoreName>(rt: &R, opened: Opened<u64>) -> io::Result<()>
    requires { opened.values ≡ K.shelves }
{
    let store = opened.named::<K>();
    match store.put(rt, 5) {
        Ok(token) => tell_number(rt, "Store::put, Store::see", *store.see(&token))?,
        Err((value, _)) => tell_number(rt, "refused", value)?,
    }
    match store.put(rt, 7) {
        Ok(_) => tell(rt, "Store::with_limit", b"no limit"),
        Err((value, _)) => tell_number(rt, "Store::with_limit, refused", value),
    }
}

// ---- a bench

fn tell_edited<R: Print>(rt: &R, edited: Result<u64, EditFault>) -> io::Result<()> {
    match edited {
        Ok(number) => tell_number(rt, "edited", number),
        Err(_) => tell(rt, "edited", b"refused"),
    }
}

fn tell_claimed<R: Print>(rt: &R, claimed: Result<Option<u64>, ClaimFault>) -> io::Result<()> {
    match claimed {
        Ok(Some(number)) => tell_number(rt, "claimed", number),
        Ok(None) => tell(rt, "claimed", b"nothing"),
        Err(_) => tell(rt, "claimed", b"refused"),
    }
}

fn tell_finish<R: Print>(rt: &R, finish: Finish) -> io::Result<()> {
    match finish {
        Finish::Unknown => tell(rt, "returned", b"unknown"),
        Finish::Stale(Some(number)) => tell_number(rt, "returned, stale", number),
        Finish::Stale(None) => tell(rt, "returned", b"stale"),
        Finish::Same => tell(rt, "returned", b"same"),
        Finish::Stored(stored) => { tell_number(rt, "returned, stored", stored.names.len() as u64) }
    }
}

fn tell_reply<R: Print>(rt: &R, reply: Reply<EditFault>) -> io::Result<()> {
    match reply {
        Reply::Edited(edited) => tell_edited(rt, edited),
        Reply::Claimed(claimed) => tell_claimed(rt, claimed),
        Reply::Returned(Ok(finish)) => tell_finish(rt, finish),
        Reply::Returned(Err(_)) => tell(rt, "returned", b"refused"),
        Reply::Lost(was_out) => tell_whether(rt, "lost", was_out),
        Reply::Renewed => tell(rt, "renewed", b"yes"),
    }
}

// A return that an edit makes stale, and the same once more.
fn late_return(alloc: Global) -> Result<Vec<Event<Edit>>, AllocError> {
    let mut events = Vec::new(alloc);
    events.push(Event::Edit(put_test(alloc, MP)?))?;
    events.push(Event::Edit(put_model(alloc, b"sc", fixtures::SC)?))?;
    events.push(Event::Claim)?;
    events.push(Event::Edit(Edit::SetThread {
        test: Vec::from_slice(alloc, b"MP")?,
        thread: 0,
        text: Vec::from_slice(alloc, b"li r1,2; stw r1,0(r2)")?,
    }))?;
    events.push(Event::Return(3))?;
    events.push(Event::Return(3))?;
    Ok(events)
}

fn show_events<R, K, T>(rt: &R, bench: &mut Bench<K, T>) -> io::Result<()>
where
    R: Print + AllocGlobal + Wait,
    K: StoreName,
    T: CellTexts<Edit = Edit, Fault = EditFault>,
{
    println!(rt; "Bench::run_events")?;
    let events = late_return(rt.alloc())?;
    for reply in bench.run_events(rt, rt.alloc(), &events)? {
        tell_reply(rt, reply)?;
    }
    Ok(())
}

fn show_shown<R, K, T>(rt: &R, bench: &Bench<K, T>) -> io::Result<()>
where
    R: Print,
    K: StoreName,
    T: CellTexts,
{
    match bench.shown(b"CoWR", b"sc") {
        Shown::NoCell => tell(rt, "Bench::shown", b"no cell")?,
        Shown::Open => tell(rt, "Bench::shown", b"open")?,
        Shown::Settled(_) => tell(rt, "Bench::shown", b"settled")?,
    }
    tell_whether(rt, "Bench::all_settled", bench.all_settled())
}

fn make_edits<R, K, T>(rt: &R, bench: &mut Bench<K, T>) -> io::Result<()>
where
    R: Print + AllocGlobal,
    K: StoreName,
    T: CellTexts<Edit = Edit, Fault = EditFault>,
{
    println!(rt; "Bench::edit")?;
    let alloc = rt.alloc();
    let test = Vec::from_slice(alloc, b"MP")?;
    tell_edited(rt, bench.edit(alloc, Edit::DropTest { test }))?;
    tell_edited(rt, bench.edit(alloc, put_test(alloc, COWR)?))
}

// Runs a job.
fn made_by<R, K, T>(rt: &R, job: Job<K, T>) -> io::Result<Option<Done<K, T>>>
where
    R: Print + AllocGlobal + Wait,
    K: StoreName,
    T: CellTexts,
{
    match job.run(rt, rt.alloc()) {
        Ok(done) => Ok(Some(done)),
        Err(_) => {
            tell(rt, "Job::run", b"refused")?;
            Ok(None)
        }
    }
}

// Claims a job and runs it, if there is one.
fn made<R, K, T>(rt: &R, bench: &mut Bench<K, T>) -> io::Result<Option<Done<K, T>>>
where
    R: Print + AllocGlobal + Wait,
    K: StoreName,
    T: CellTexts,
{
    match bench.claim(rt.alloc()) {
        Ok(Some(job)) => made_by(rt, job),
        Ok(None) => Ok(None),
        Err(_) => {
            tell(rt, "Bench::claim", b"refused")?;
            Ok(None)
        }
    }
}

// Returns what a job makes, twice: the node that it was for.
fn return_twice<R, K, T>(rt: &R, bench: &mut Bench<K, T>) -> io::Result<Option<Node>>
where
    R: Print + AllocGlobal + Wait,
    K: StoreName,
    T: CellTexts,
{
    println!(rt; "Bench::claim, Job::run, Done::copy, Bench::finish")?;
    let Some(done) = made(rt, bench)? else {
        return Ok(None);
    };
    tell_number(rt, "Done::claim_number", done.claim_number())?;
    let node = done.node();
    let copy = done.copy(rt.alloc())?;
    tell_finish(rt, bench.finish(done))?;
    tell_finish(rt, bench.finish(copy))?;
    Ok(Some(node))
}

// Returns what the jobs make, one after another, until no cell is open.
fn return_all<R, K, T>(rt: &R, bench: &mut Bench<K, T>) -> io::Result<()>
where
    R: Print + AllocGlobal + Wait,
    K: StoreName,
    T: CellTexts,
{
    for _ in 0..9 {
        match made(rt, bench)? {
            Some(done) => tell_finish(rt, bench.finish(done))?,
            None => return Ok(()),
        }
    }
    Ok(())
}

// Prints what the marks of a bench say of a node, and what the recursion says.
fn show_marks<R, K, T>(rt: &R, bench: &Bench<K, T>, node: Node) -> io::Result<()>
where
    R: Print + AllocGlobal,
    K: StoreName,
    T: CellTexts,
{
    let marks = bench.marks(rt.alloc())?;
    tell_whether(rt, "memo_marks::settled", memo_marks::settled(&marks, node))?;
    let users = memo_marks::users(&marks, node);
    tell_number(rt, "memo_marks::users", users.len() as u64)?;
    let matches = memo_graph::matches(marks.texts(), marks.memos(), node);
    tell_whether(rt, "memo_graph::matches", matches)?;
    let settled = memo_graph::settled(marks.texts(), marks.memos(), node);
    tell_whether(rt, "memo_graph::settled", settled)
}

fn show_jobs<R, K, T>(rt: &R, bench: &mut Bench<K, T>) -> io::Result<()>
where
    R: Print + AllocGlobal + Wait,
    K: StoreName,
    T: CellTexts,
{
    let Some(node) = return_twice(rt, bench)? else {
        return Ok(());
    };
    match bench.claim(rt.alloc()) {
        Ok(Some(job)) => tell_whether(rt, "Bench::lose", bench.lose(job.claim_number()))?,
        _ => tell(rt, "Bench::claim", b"refused")?,
    }
    show_shown(rt, bench)?;
    return_all(rt, bench)?;
    show_shown(rt, bench)?;
    show_marks(rt, bench, node)?;
    bench.renew();
    println!(rt; "Bench::renew")?;
    show_shown(rt, bench)
}

fn play_bench<R, K>(rt: &R, opened: Opened<bench_values::NodeValue>) -> io::Result<()>
where
    R: Print + AllocGlobal + Wait,
    K: StoreName,
    requires { opened.values ≡ K.shelves }
{
    let mut bench = Bench::<K, StampedTexts>::new(rt.alloc(), opened.named::<K>())?;
    show_events(rt, &mut bench)?;
    make_edits(rt, &mut bench)?;
    show_jobs(rt, &mut bench)
}

fn show_bench<R: Print + AllocGlobal + Wait>(rt: &R) -> io::Result<()> {
    println!(rt; "# A bench")?;
    show_edits(rt)?;
    fill::<R, Brand>(rt, Store::with_limit(rt.alloc(), 1)?)?;
    play_bench::<R, Brand>(rt, Store::new(rt.alloc())?)
}

// ---- a desk

fn tell_refused<R: Print>(rt: &R, call: &str, fault: DeskFault<EditFault>) -> io::Result<()> {
    match fault.number() {
        Some(number) => println!(rt; "{call}: K{number}"),
        None => tell(rt, call, b"refused"),
    }
}

fn edit_at<R, J, X, H>(
    rt: &R,
    desk: &Desk<J, X, H>,
    author: &mut Viewer<J, X>,
    edit: Edit,
) -> io::Result<()>
where
    R: Print + Wait,
    J: Naming + StoreName,
    X: BoardTexts<Edit = Edit, Fault = EditFault>,
    H: Wait + Drop,
{
    match desk.edit(rt, author, edit) {
        Ok(Accepted::Now(number)) => tell_number(rt, "Desk::edit, now", number),
        Ok(Accepted::Later(number)) => tell_number(rt, "Desk::edit, later", number),
        Err(fault) => tell_refused(rt, "Desk::edit", fault),
    }
}

fn word_of_cell(shown: compare_report::Shown<'_>) -> &'static [u8] {
    match shown {
        compare_report::Shown::NoCell => b"no cell",
        compare_report::Shown::Open => b"open",
        compare_report::Shown::Settled(_) => b"settled",
    }
}

fn tell_name<R: Print + AllocGlobal>(rt: &R, test: &[u8], model: &[u8]) -> io::Result<()> {
    let mut answer = Vec::from_slice(rt.alloc(), test)?;
    put_bytes(&mut answer, b" ")?;
    put_bytes(&mut answer, model)?;
    tell(rt, "Board::cells_in_order", &answer)
}

fn show_board<R: Print + AllocGlobal>(rt: &R, board: &Board) -> io::Result<()> {
    tell_number(rt, "Board::edit_count", board.edit_count())?;
    tell(rt, "Board::show", word_of_cell(board.show(b"CoWR", b"sc")))?;
    match board.items(b"sc") {
        Some(items) => tell(rt, "Board::items", items)?,
        None => tell(rt, "Board::items", b"no model")?,
    }
    for cell in &board.cells_in_order(rt.alloc())? {
        tell_name(rt, cell.test, cell.model)?;
    }
    Ok(())
}

fn show_report<R: Print + AllocGlobal>(rt: &R, board: &Board) -> io::Result<()> {
    let alloc = rt.alloc();
    tell(rt, "log_text", &log_text(alloc, board, b"CoWR", b"sc")?)?;
    tell(
        rt,
        "counts_text",
        &counts_text(alloc, board, b"CoWR", b"all")?,
    )?;
    let models = [Name::new(alloc, b"sc")?, Name::new(alloc, b"all")?];
    tell(rt, "table_text", &table_text(alloc, board, &models)?)?;
    tell(
        rt,
        "difference_text",
        &difference_text(alloc, board, b"sc", b"all")?,
    )
}

// Prints the board that was published last, or what is reported of it. The viewer comes back.
fn look<R, J, X>(rt: &R, viewer: Viewer<J, X>, is_report: bool) -> io::Result<Viewer<J, X>>
where
    R: Print + AllocGlobal,
    J: Naming + StoreName,
    X: BoardTexts<Board = Board>,
{
    println!(rt; "Viewer::read, View::board, View::leave")?;
    match viewer.read() {
        Ok(view) => {
            let told = if is_report {
                show_report(rt, view.board())
            } else {
                show_board(rt, view.board())
            };
            let viewer = view.leave();
            told?;
            Ok(viewer)
        }
        Err(viewer) => {
            tell(rt, "Viewer::read", b"no view")?;
            Ok(viewer)
        }
    }
}

fn make_desk_edits<R, J, X, H>(
    rt: &R,
    desk: &Desk<J, X, H>,
    author: &mut Viewer<J, X>,
) -> io::Result<()>
where
    R: Print + AllocGlobal + Wait,
    J: Naming + StoreName,
    X: BoardTexts<Edit = Edit, Fault = EditFault>,
    H: Wait + Drop,
{
    let alloc = rt.alloc();
    edit_at(rt, desk, author, put_test(alloc, COWR)?)?;
    edit_at(rt, desk, author, put_model(alloc, b"sc", fixtures::SC)?)?;
    edit_at(
        rt,
        desk,
        author,
        put_model(alloc, b"all", b"empty 0 as none")?,
    )
}

fn tell_posted<R: Print>(rt: &R, posted: Posted) -> io::Result<()> {
    match posted {
        Posted::Now => tell(rt, "Desk::finish", b"posted now"),
        Posted::Later => tell(rt, "Desk::finish", b"posted later"),
    }
}

// A job is given back.
fn lose_one<R, J, X, H>(rt: &R, desk: &Desk<J, X, H>) -> io::Result<()>
where
    R: Print + Wait,
    J: Naming + StoreName,
    X: BoardTexts<Edit = Edit, Fault = EditFault>,
    H: Wait + Drop,
{
    let Ok(Some(job)) = desk.claim(rt) else {
        return tell(rt, "Desk::claim", b"refused");
    };
    let claim = job.claim_number();
    tell_number(rt, "Desk::claim", claim)?;
    tell_whether(rt, "Desk::lose", matches!(desk.lose(rt, claim), Ok(true)))
}

// What a job makes is returned, and the next job is given out.
fn exchange_one<R, J, X, H>(rt: &R, desk: &Desk<J, X, H>) -> io::Result<()>
where
    R: Print + AllocGlobal + Wait,
    J: Naming + StoreName,
    X: BoardTexts<Edit = Edit, Fault = EditFault>,
    H: Wait + Drop,
{
    let Ok(Some(job)) = desk.claim(rt) else {
        return tell(rt, "Desk::claim", b"refused");
    };
    let Some(done) = made_by(rt, job)? else {
        return Ok(());
    };
    match desk.exchange(rt, done) {
        Ok((finish, _posted, next)) => {
            tell_finish(rt, finish)?;
            return_next(rt, desk, next)
        }
        Err(fault) => tell_refused(rt, "Desk::exchange", fault),
    }
}

// What the next job makes is returned.
fn return_next<R, J, X, H>(
    rt: &R,
    desk: &Desk<J, X, H>,
    next: Result<Option<Job<J, X>>, DeskFault<EditFault>>,
) -> io::Result<()>
where
    R: Print + AllocGlobal + Wait,
    J: Naming + StoreName,
    X: BoardTexts<Edit = Edit, Fault = EditFault>,
    H: Wait + Drop,
{
    match next {
        Ok(Some(job)) => {
            tell_number(rt, "Desk::exchange", job.claim_number())?;
            return_one(rt, desk, job)
        }
        Ok(None) => tell(rt, "Desk::exchange", b"no job"),
        Err(fault) => tell_refused(rt, "Desk::exchange", fault),
    }
}

// What a job makes is returned.
fn return_one<R, J, X, H>(rt: &R, desk: &Desk<J, X, H>, job: Job<J, X>) -> io::Result<()>
where
    R: Print + AllocGlobal + Wait,
    J: Naming + StoreName,
    X: BoardTexts<Edit = Edit, Fault = EditFault>,
    H: Wait + Drop,
{
    let Some(done) = made_by(rt, job)? else {
        return Ok(());
    };
    match desk.finish(rt, done) {
        Ok((finish, posted)) => {
            tell_finish(rt, finish)?;
            tell_posted(rt, posted)
        }
        Err(fault) => tell_refused(rt, "Desk::finish", fault),
    }
}

// Settles all cells as a viewer, who comes back.
fn settle_as<R, J, X, H>(rt: &R, desk: &Desk<J, X, H>, viewer: Viewer<J, X>) -> (Viewer<J, X>, bool)
where
    R: Wait,
    J: Naming + StoreName,
    X: BoardTexts,
    H: Wait + Drop,
{
    let mut viewer = viewer;
    let is_settled = desk.settle(rt, &mut viewer).is_ok();
    (viewer, is_settled)
}

fn tell_tally<R: Print>(rt: &R, call: &str, tally: &Tally) -> io::Result<()> {
    let (stored, same, stale) = (tally.stored, tally.same, tally.stale);
    let (unknown, refused) = (tally.unknown, tally.refused);
    println!(rt;
        "{call}: {stored} stored, {same} same, {stale} stale, {unknown} unknown, {refused} refused"
    )
}

// A desk that was closed refuses, and nobody works at it. What was published is still read.
fn show_closed<R, J, X, H>(rt: &R, desk: &Desk<J, X, H>) -> io::Result<()>
where
    R: Print + AllocGlobal + Wait,
    J: Naming + StoreName,
    X: BoardTexts<Edit = Edit, Fault = EditFault>,
    H: Wait + Drop,
{
    let tally = work(rt, rt.alloc(), desk, &NoGate);
    tell_tally(rt, "work", &tally)?;
    match desk.close(rt) {
        Ok(()) => tell(rt, "Desk::close", b"closed"),
        Err(fault) => tell_refused(rt, "Desk::close", fault),
    }
}

fn work_beside<R, J, X, H>(rt: &R, desk: &Desk<J, X, H>, author: Viewer<J, X>) -> io::Result<()>
where
    R: Print + AllocGlobal + Wait + Threads + Send + Sync,
    J: Naming + StoreName + Send + Sync,
    X: BoardTexts<Edit = Edit, Fault = EditFault, Board = Board> + Send + Sync,
    X::Value: Send + Sync,
    X::Given: Send + Sync,
    X::Edit: Send + Sync,
    X::Prepared: Send + Sync,
    X::Fault: Send + Sync,
    X::Outcome: Send + Sync,
    X::Op: Send + Sync,
    X::Board: Send + Sync,
    H: Wait + Drop + Send + Sync,
{
    let body = || settle_as(rt, desk, author);
    match with_workers(rt, rt.alloc(), desk, &NoGate, 2, body) {
        Ok(((author, is_settled), tally)) => {
            tell_whether(rt, "Desk::settle", is_settled)?;
            tell_tally(rt, "with_workers", &tally)?;
            let _author = look(rt, author, true)?;
            Ok(())
        }
        Err(_) => tell(rt, "with_workers", b"refused"),
    }
}

fn play_desk<R, J, X, H>(rt: &R, desk: &Desk<J, X, H>) -> io::Result<()>
where
    R: Print + AllocGlobal + Wait + Threads + Send + Sync,
    J: Naming + StoreName + Send + Sync,
    X: BoardTexts<Edit = Edit, Fault = EditFault, Board = Board> + Send + Sync,
    X::Value: Send + Sync,
    X::Given: Send + Sync,
    X::Edit: Send + Sync,
    X::Prepared: Send + Sync,
    X::Fault: Send + Sync,
    X::Outcome: Send + Sync,
    X::Op: Send + Sync,
    X::Board: Send + Sync,
    H: Wait + Drop + Send + Sync,
{
    let Ok(mut author) = desk.viewer(rt) else {
        return tell(rt, "Desk::viewer", b"refused");
    };
    make_desk_edits(rt, desk, &mut author)?;
    let author = look(rt, author, false)?;
    lose_one(rt, desk)?;
    exchange_one(rt, desk)?;
    tell_whether(rt, "Desk::renew", desk.renew(rt).is_ok())?;
    work_beside(rt, desk, author)?;
    show_closed(rt, desk)
}

fn open_desk<R, J>(rt: &R, opened: OpenedDesk<StampedTexts>) -> io::Result<()>
where
    R: Print + AllocGlobal + Wait + Threads + Copy + Send + Sync + Drop,
    J: Naming + StoreName + Send + Sync,
    requires book { opened.book.seen.book ≡ J.book }
    requires values { opened.values.values ≡ J.shelves }
{
    match DeskSeed::<J, StampedTexts, R>::new(rt, rt.alloc(), opened) {
        Ok(seed) => play_desk(rt, &Desk::new(seed)),
        Err(_) => tell(rt, "DeskSeed::new", b"refused"),
    }
}

// Prints after how many refusals in a row a worker gives up.
fn show_refusals<R: Print>(rt: &R) -> io::Result<()> {
    let mut refusals = Refusals::new();
    for count in 1..40 {
        if refusals.note(true) {
            return tell_number(rt, "Refusals::note", count);
        }
    }
    tell(rt, "Refusals::note", b"never")
}

fn show_desk<R>(rt: &R) -> io::Result<()>
where
    R: Print + AllocGlobal + Wait + Threads + Copy + Send + Sync + Drop,
{
    println!(rt; "# A desk")?;
    board::laws::legal_is_right();
    show_refusals(rt)?;
    NoGate.begin(rt, 1);
    NoGate.end(rt, 1);
    tell_whether(rt, "NoGate::hears_ends", NoGate.hears_ends())?;
    open_desk::<R, Brand>(rt, OpenedDesk::new(rt.alloc())?)
}

// ---- the library

fn show_eval<R: Print + AllocGlobal>(rt: &R) -> io::Result<()> {
    match eval(rt.alloc(), fixtures::SC, COWR) {
        Ok(log) => tell(rt, "eval", &log),
        Err(_) => tell(rt, "eval", b"refused"),
    }
}

// Prints what was written, and whether something was refused.
fn tell_written<R: Print>(
    rt: &R,
    call: &str,
    written: &[u8],
    is_refused: Result<bool, SessionFault>,
) -> io::Result<()> {
    match is_refused {
        Ok(is_refused) => {
            tell(rt, call, written)?;
            tell_whether(rt, "refused", is_refused)
        }
        Err(_) => tell(rt, call, b"refused"),
    }
}

fn show_stream<R: Print + AllocGlobal>(rt: &R) -> io::Result<()> {
    let mut source = MemorySource::failing_at(fixtures::SC, None);
    let mut sink = MemorySink::failing_at(Vec::new(rt.alloc()), None);
    let is_refused = eval_stream(rt, &mut source, &mut sink);
    tell_written(rt, "eval_stream", sink.as_bytes(), is_refused)
}

fn show_session<R>(rt: &R) -> io::Result<()>
where
    R: AllocGlobal + Print + Threads + Wait + Copy + Drop + Send + Sync + 'static,
{
    let mut source = MemorySource::failing_at(SCRIPT, None);
    let mut sink = MemorySink::failing_at(Vec::new(rt.alloc()), None);
    let is_refused = session(rt, &mut source, &mut sink, 2, &NoGate);
    tell_written(rt, "session", sink.as_bytes(), is_refused)
}

fn show_form<R: Print>(rt: &R, form: Result<Form<'_>, UsageFault>) -> io::Result<()> {
    match form {
        Ok(Form::Session { script: _, workers }) => tell_number(rt, "form_of", workers),
        Ok(_) => tell(rt, "form_of", b"another form"),
        Err(UsageFault::Words(_)) => tell(rt, "form_of", b"usage"),
        Err(UsageFault::Memory(_)) => tell(rt, "form_of", b"out of memory"),
    }
}

// Reads some bytes of a reader of std, and some of memory where the first call fails.
fn show_sources<R: Print>(rt: &R) -> io::Result<()> {
    let mut buffer = [0_u8; 4];
    let mut reader = OfRead::new(COWR);
    match reader.read_some(&mut buffer) {
        Ok(count) => tell_number(rt, "OfRead", count as u64)?,
        Err(_) => tell(rt, "OfRead", b"failed")?,
    }
    let mut source = MemorySource::failing_at(COWR, Some(0));
    let is_failed = source.read_some(&mut buffer).is_err();
    tell_whether(rt, "MemorySource fails", is_failed)
}

// Writes a byte to standard output, and one to memory where the first call fails.
fn show_sinks<R: Print + AllocGlobal>(rt: &R) -> io::Result<()> {
    let mut writer = OfWrite::new(io::writer(rt));
    match writer.write_some(b"\n") {
        Ok(count) => tell_number(rt, "OfWrite", count as u64)?,
        Err(_) => tell(rt, "OfWrite", b"failed")?,
    }
    let mut sink = MemorySink::failing_at(Vec::new(rt.alloc()), Some(0));
    let is_failed = sink.write_some(b"\n").is_err();
    tell_whether(rt, "MemorySink fails", is_failed)
}

fn show_library<R>(rt: &R) -> io::Result<()>
where
    R: AllocGlobal + Print + Threads + Wait + Copy + Drop + Send + Sync + 'static,
{
    println!(rt; "# The library")?;
    show_eval(rt)?;
    show_stream(rt)?;
    show_session(rt)?;
    let words = ["pipitsolder", "session", "--workers", "2"];
    show_form(rt, form_of(rt.alloc(), &words))?;
    let words = ["pipitsolder", "session", "--workers", "33"];
    show_form(rt, form_of(rt.alloc(), &words))?;
    show_sources(rt)?;
    show_sinks(rt)
}

/// Prints what each call answers.
pub fn show_all<R>(rt: &R) -> io::Result<()>
where
    R: AllocGlobal + Print + Threads + Wait + Copy + Drop + Send + Sync + 'static,
{
    show_relations(rt)?;
    show_texts(rt)?;
    show_executions(rt)?;
    show_models(rt)?;
    show_bench(rt)?;
    show_desk(rt)?;
    show_library(rt)
}
