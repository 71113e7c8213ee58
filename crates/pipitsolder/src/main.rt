//! The program: what its words ask for.
#![tactic(auto)]

mod watched_files;

use command_answers::{
    Asked, DrawRequest, Form, Format, NoProgress, OfRead, OfWrite, ProgressTeller, ReadFault,
    RefusalTeller, Report, ResultFormat, RunEnd, SessionFault, TextFile, UsageFault,
    difference_report, draw_report, draw_request, eval_stream_heard, exit_status, form_of,
    model_fault, model_refusal_lines, read_prefix, read_text, refusal_lines, table_report,
    test_refusal_lines, write_answer, write_drawings, write_report, write_why,
};
use line_answers::{Lines, eval_report, line_report};
use path_lists::{
    InnerListFault, ListEntry, WantedFile, file_of_entry, file_of_word, inner_files, list_entries,
};
use report_answers::{PageRequest, page_report};
use session_run::{NoGate, session_heard};
use std::alloc::{AllocError, Global};
use std::fmt::Display;
use std::fs::File;
use std::io::{IsTerminal, Printer, Read, Write};
use std::process::ExitCode;
use std::rt::{Clock, Env, Files};
use std::sync::Wait;
use std::thread::Threads;
use std::{env, io};
use watched_files::watch_files;

fn tell_fault<R: Eprint>(rt: &R, fault: SessionFault) -> RunEnd {
    let _ = rt.eprintln(format_args!("fault: {fault}"));
    RunEnd::Fault(fault)
}

fn tell_usage<R: Eprint>(rt: &R, fault: &UsageFault) -> RunEnd {
    if matches!(fault, UsageFault::Memory(_)) {
        return tell_fault(rt, SessionFault::Memory);
    }
    let _ = rt.eprint(fault);
    RunEnd::Usage
}

fn tell_words<R: Eprint>(rt: &R, error: &io::Error) -> RunEnd {
    if matches!(error.kind(), io::ErrorKind::OutOfMemory) {
        return tell_fault(rt, SessionFault::Memory);
    }
    let _ = rt.eprintln("error: a word is not UTF-8");
    RunEnd::Usage
}

fn tell_done<R: Eprint>(rt: &R, answered: Result<bool, SessionFault>) -> RunEnd {
    match answered {
        Ok(is_refused) => RunEnd::Answered(is_refused),
        Err(fault) => tell_fault(rt, fault),
    }
}

// Tells which of the two texts is refused and why. What cannot be told is left out.
fn tell_refusal<R: AllocGlobal, E: Print>(
    rt: &R,
    errors: &E,
    model: &TextFile<'_>,
    test: &TextFile<'_>,
) {
    if let Ok(lines) = refusal_lines(rt.alloc(), model, test) {
        let _ = io::writer(errors).write_all(&lines);
    }
}

// Tells where a model whose text reads has a fault. What cannot be told is left out.
fn tell_model<R: AllocGlobal, E: Print>(rt: &R, errors: &E, model: &TextFile<'_>) {
    if let Ok(lines) = model_fault(rt.alloc(), model) {
        let _ = io::writer(errors).write_all(&lines);
    }
}

fn tell_models<R: AllocGlobal, E: Print>(rt: &R, errors: &E, models: &[TextFile<'_>]) {
    for model in models {
        tell_model(rt, errors, model);
    }
}

// Tells of what was answered: a refusal, or else the fault of the model.
fn tell_answer<R: AllocGlobal, E: Print>(
    rt: &R,
    errors: &E,
    is_refused: bool,
    model: &TextFile<'_>,
    test: &TextFile<'_>,
) {
    if is_refused {
        tell_refusal(rt, errors, model, test);
    } else {
        tell_model(rt, errors, model);
    }
}

// Tells how far a table is, where the errors go to a terminal.
fn progress_to<'r, R: AllocGlobal + Clock, E: Print + IsTerminal>(
    rt: &'r R,
    errors: &'r E,
) -> ProgressTeller<'r, R, Printer<'r, E>> {
    ProgressTeller::new(rt.alloc(), rt, io::writer(errors), errors.is_terminal())
}

fn stream<R: AllocGlobal + Input + Print, E: Print>(
    rt: &R,
    errors: &E,
) -> Result<bool, SessionFault> {
    let mut source = OfRead::new(rt.reader());
    let mut sink = OfWrite::new(io::writer(rt));
    let mut teller = RefusalTeller::new(rt.alloc(), io::writer(errors), NoProgress);
    eval_stream_heard(rt, &mut source, &mut sink, &mut teller)
}

// Answers the script of a source.
fn session_over<R, E: Print + IsTerminal, S: Read + Drop>(
    rt: &R,
    errors: &E,
    script: S,
    workers: u64,
) -> Result<bool, SessionFault>
where
    R: AllocGlobal + Clock + Print + Threads + Wait + Copy + Drop + Send + Sync + 'static,
{
    let mut source = OfRead::new(script);
    let mut sink = OfWrite::new(io::writer(rt));
    let progress = progress_to(rt, errors);
    let mut teller = RefusalTeller::new(rt.alloc(), io::writer(errors), progress);
    session_heard(rt, &mut source, &mut sink, workers, &NoGate, &mut teller)
}

fn tell_file<R: Eprint, T: Display>(rt: &R, path: &str, reason: &T) {
    let _ = rt.eprintln(format_args!("{path}: {reason}"));
}

fn open_file<R: Eprint + Files>(rt: &R, path: &str, label: &str) -> Result<R::File, SessionFault> {
    match File::open(rt, path) {
        Ok(file) => Ok(file),
        Err(error) => {
            tell_file(rt, label, &error);
            Err(SessionFault::Read)
        }
    }
}

// What was read of a file, or what came of it: a read that failed is told.
fn told<R: Eprint, T>(
    rt: &R,
    path: &str,
    read: Result<T, SessionFault>,
) -> Result<T, SessionFault> {
    if let Err(SessionFault::Read) = &read {
        tell_file(rt, path, &"the file cannot be read to its end");
    }
    read
}

// Answers the script of a file, or of standard input.
fn session_of<R, E: Print + IsTerminal>(
    rt: &R,
    errors: &E,
    script: Option<&str>,
    workers: u64,
) -> Result<bool, SessionFault>
where
    R: AllocGlobal
        + Clock
        + Eprint
        + Files
        + Input
        + Print
        + Threads
        + Wait
        + Copy
        + Drop
        + Send
        + Sync
        + 'static,
{
    match script {
        Some(path) => {
            let file = open_file(rt, path, path)?;
            told(rt, path, session_over(rt, errors, file, workers))
        }
        None => session_over(rt, errors, rt.reader(), workers),
    }
}

fn text_of_file<R: AllocGlobal + Eprint + Files>(
    rt: &R,
    path: &str,
    label: &str,
) -> Result<Vec<u8>, SessionFault> {
    let mut source = OfRead::new(open_file(rt, path, label)?);
    told(rt, label, read_text(rt.alloc(), &mut source))
}

fn read_file<'a, R: AllocGlobal + Eprint + Files>(
    rt: &R,
    path: &'a str,
) -> Result<TextFile<'a>, SessionFault> {
    let text = text_of_file(rt, path, path)?;
    Ok(TextFile { path, text })
}

// What is asked of the model and the test of two files.
#[derive(Clone, Copy)]
enum PairQuestion {
    Log,
    Reasons(Asked),
    Pictures(DrawRequest),
}

fn write_pair<R: AllocGlobal + Print>(
    rt: &R,
    question: PairQuestion,
    model: &[u8],
    test: &[u8],
) -> Result<bool, SessionFault> {
    let mut sink = OfWrite::new(io::writer(rt));
    match question {
        PairQuestion::Log => write_answer(rt.alloc(), model, test, &mut sink),
        PairQuestion::Reasons(asked) => write_why(rt.alloc(), asked, model, test, &mut sink),
        PairQuestion::Pictures(request) => {
            write_drawings(rt.alloc(), model, test, request, &mut sink)
        }
    }
}

// Tells how to split a text of more than one graph.
fn tell_many<R: AllocGlobal + Eprint>(rt: &R, question: PairQuestion, model: &[u8], test: &[u8]) {
    let PairQuestion::Pictures(request) = question else {
        return;
    };
    if request.format != Format::Dot || request.most < 2 || request.skipped > 0 {
        return;
    }
    let second = DrawRequest {
        skipped: 1,
        most: 2,
        ..request
    };
    if let Ok(text) = draw_report(rt.alloc(), model, test, second) {
        if text.starts_with(b"digraph") {
            let _ = rt.eprintln(
                "note: more than one graph in one text; --nth K writes one, --svg a picture",
            );
        }
    }
}

fn answer_pair<R: AllocGlobal + Eprint + Files + Print, E: Print>(
    rt: &R,
    errors: &E,
    question: PairQuestion,
    model: &str,
    test: &str,
) -> Result<bool, SessionFault> {
    let model = read_file(rt, model)?;
    let test = read_file(rt, test)?;
    let is_refused = write_pair(rt, question, &model.text, &test.text)?;
    tell_answer(rt, errors, is_refused, &model, &test);
    tell_many(rt, question, &model.text, &test.text);
    Ok(is_refused)
}

fn add_file(
    files: &mut Vec<WantedFile>,
    file: Result<WantedFile, AllocError>,
) -> Result<(), SessionFault> {
    match file {
        Ok(file) => match files.push(file) {
            Ok(()) => Ok(()),
            Err(_) => Err(SessionFault::Memory),
        },
        Err(_) => Err(SessionFault::Memory),
    }
}

// The most bytes of a list.
const MOST_OF_LIST: usize = 67_108_864;

fn list_bytes<R: AllocGlobal + Eprint + Files>(
    rt: &R,
    list: &str,
) -> Result<Vec<u8>, SessionFault> {
    let mut source = OfRead::new(open_file(rt, list, list)?);
    match read_prefix(rt.alloc(), &mut source, MOST_OF_LIST) {
        Ok(bytes) if bytes.len() < MOST_OF_LIST => Ok(bytes),
        Err(ReadFault::Memory) => Err(SessionFault::Memory),
        _ => {
            tell_file(
                rt,
                list,
                &"the list cannot be read to its end, or is too long",
            );
            Err(SessionFault::Read)
        }
    }
}

// The text of a list.
fn list_text<R: AllocGlobal + Eprint + Files>(rt: &R, list: &str) -> Result<String, SessionFault> {
    match String::from_utf8(list_bytes(rt, list)?) {
        Ok(text) => Ok(text),
        Err(_) => {
            tell_file(rt, list, &"the list is not UTF-8");
            Err(SessionFault::Read)
        }
    }
}

// Adds the files of a list that another list names.
fn add_inner_list<R: AllocGlobal + Eprint + Files>(
    rt: &R,
    list: &str,
    files: &mut Vec<WantedFile>,
) -> Result<(), SessionFault> {
    let text = list_text(rt, list)?;
    match inner_files(rt.alloc(), list, text.as_str()) {
        Ok(found) => {
            for file in found {
                add_file(files, Ok(file))?;
            }
            Ok(())
        }
        Err(InnerListFault::NamesList { line }) => {
            let told = format_args!("{list}:{line}: a list that a list names may name no list");
            let _ = rt.eprintln(told);
            Err(SessionFault::Read)
        }
        Err(InnerListFault::OutOfMemory(_)) => Err(SessionFault::Memory),
    }
}

fn entries_of<R: AllocGlobal + Eprint + Files>(
    rt: &R,
    list: &str,
) -> Result<Vec<ListEntry>, SessionFault> {
    let text = list_text(rt, list)?;
    match list_entries(rt.alloc(), list, text.as_str()) {
        Ok(entries) => Ok(entries),
        Err(_) => Err(SessionFault::Memory),
    }
}

fn add_list<R: AllocGlobal + Eprint + Files>(
    rt: &R,
    list: &str,
    files: &mut Vec<WantedFile>,
) -> Result<(), SessionFault> {
    for entry in entries_of(rt, list)? {
        if entry.is_list {
            add_inner_list(rt, entry.path.as_str(), files)?;
        } else {
            add_file(files, file_of_entry(rt.alloc(), list, entry))?;
        }
    }
    Ok(())
}

// The files of these words: a word behind `@` is a list of them.
fn wanted_files<R: AllocGlobal + Eprint + Files>(
    rt: &R,
    words: &[&str],
) -> Result<Vec<WantedFile>, SessionFault> {
    let mut files = Vec::new(rt.alloc());
    for word in words {
        match word.strip_prefix('@') {
            Some(list) => add_list(rt, list, &mut files)?,
            None => add_file(&mut files, file_of_word(rt.alloc(), *word))?,
        }
    }
    Ok(files)
}

fn two_files<R: AllocGlobal>(
    rt: &R,
    first: &str,
    second: &str,
) -> Result<Vec<WantedFile>, SessionFault> {
    let mut files = Vec::new(rt.alloc());
    add_file(&mut files, file_of_word(rt.alloc(), first))?;
    add_file(&mut files, file_of_word(rt.alloc(), second))?;
    Ok(files)
}

fn files_of<'a, R: AllocGlobal + Eprint + Files>(
    rt: &R,
    wanted: &'a [WantedFile],
) -> Result<Vec<TextFile<'a>>, SessionFault> {
    let mut files = Vec::new(rt.alloc());
    for file in wanted {
        let text = text_of_file(rt, file.path.as_str(), file.label.as_str())?;
        let path = file.path.as_str();
        if files.push(TextFile { path, text }).is_err() {
            return Err(SessionFault::Memory);
        }
    }
    Ok(files)
}

fn write_both<R: Print, E: Print>(
    rt: &R,
    errors: &E,
    report: Result<Report, AllocError>,
) -> Result<bool, SessionFault> {
    match report {
        Ok(report) => {
            let mut output = OfWrite::new(io::writer(rt));
            let mut lines = OfWrite::new(io::writer(errors));
            write_report(&report, &mut output, &mut lines)
        }
        Err(_) => Err(SessionFault::Memory),
    }
}

// What is asked of the tests of some files under the models of others.
#[derive(Clone, Copy)]
enum GridQuestion {
    Table,
    Differences,
    Lines(Lines),
    Page(PageRequest),
}

fn table_question(format: ResultFormat) -> GridQuestion {
    match format {
        ResultFormat::Plain => GridQuestion::Table,
        ResultFormat::Tab => GridQuestion::Lines(Lines::TableTab),
        ResultFormat::Json => GridQuestion::Lines(Lines::TableJson),
    }
}

fn difference_question(format: ResultFormat) -> GridQuestion {
    match format {
        ResultFormat::Plain => GridQuestion::Differences,
        ResultFormat::Tab => GridQuestion::Lines(Lines::DifferenceTab),
        ResultFormat::Json => GridQuestion::Lines(Lines::DifferenceJson),
    }
}

// Tells which files that a list names are refused. What cannot be told is left out.
fn tell_listed<R: AllocGlobal + Eprint>(
    rt: &R,
    wanted: &[WantedFile],
    files: &[TextFile<'_>],
    are_models: bool,
) {
    for (wanted, file) in wanted.iter().zip(files.iter()) {
        if wanted.is_listed && is_refused_file(rt.alloc(), file, are_models) {
            let _ = rt.eprintln(format_args!("{}: refused", wanted.label));
        }
    }
}

fn is_refused_file(alloc: Global, file: &TextFile<'_>, is_model: bool) -> bool {
    let lines = if is_model {
        model_refusal_lines(alloc, file)
    } else {
        test_refusal_lines(alloc, file)
    };
    match lines {
        Ok(lines) => !lines.is_empty(),
        Err(_) => false,
    }
}

fn grid_report<R: AllocGlobal + Clock, E: Print + IsTerminal>(
    rt: &R,
    errors: &E,
    question: GridQuestion,
    models: &[TextFile<'_>],
    tests: &[TextFile<'_>],
) -> Result<Report, AllocError> {
    let mut progress = progress_to(rt, errors);
    match question {
        GridQuestion::Table => table_report(rt.alloc(), models, tests, &mut progress),
        GridQuestion::Differences => difference_report(rt.alloc(), models, tests, &mut progress),
        GridQuestion::Lines(lines) => line_report(rt.alloc(), lines, models, tests, &mut progress),
        GridQuestion::Page(request) => {
            page_report(rt.alloc(), request, models, tests, &mut progress)
        }
    }
}

fn answer_grid<R: AllocGlobal + Clock + Eprint + Files + Print, E: Print + IsTerminal>(
    rt: &R,
    errors: &E,
    question: GridQuestion,
    wanted_models: &[WantedFile],
    tests: &[&str],
) -> Result<bool, SessionFault> {
    let wanted_tests = wanted_files(rt, tests)?;
    let models = files_of(rt, wanted_models)?;
    let tests = files_of(rt, &wanted_tests)?;
    let report = grid_report(rt, errors, question, &models, &tests);
    let is_refused = write_both(rt, errors, report)?;
    if is_refused {
        tell_listed(rt, wanted_models, &models, true);
        tell_listed(rt, &wanted_tests, &tests, false);
    }
    tell_models(rt, errors, &models);
    Ok(is_refused)
}

// Answers the model and the test of two files as a line for programs.
fn answer_line<R: AllocGlobal + Eprint + Files + Print, E: Print>(
    rt: &R,
    errors: &E,
    model: &str,
    test: &str,
) -> Result<bool, SessionFault> {
    let model = read_file(rt, model)?;
    let test = read_file(rt, test)?;
    let is_refused = write_both(rt, errors, eval_report(rt.alloc(), &model, &test))?;
    if !is_refused {
        tell_model(rt, errors, &model);
    }
    Ok(is_refused)
}

// Does what the words ask for. Whether a text was refused.
fn answer_form<R, E: Print + IsTerminal + Sync>(
    rt: &R,
    errors: &E,
    form: Form<'_>,
) -> Result<bool, SessionFault>
where
    R: AllocGlobal
        + Clock
        + Eprint
        + Files
        + Input
        + Print
        + Threads
        + Wait
        + Copy
        + Drop
        + Send
        + Sync
        + 'static,
    R::Reader: Send + Sync + 'static,
{
    match form {
        Form::Stream => stream(rt, errors),
        Form::Session { script, workers } => session_of(rt, errors, script, workers),
        Form::Watch {
            models,
            tests,
            workers,
            poll,
        } => watch_files(rt, errors, &models, &tests, workers, poll),
        Form::Eval {
            model,
            test,
            is_json,
        } => {
            if is_json {
                return answer_line(rt, errors, model, test);
            }
            answer_pair(rt, errors, PairQuestion::Log, model, test)
        }
        Form::Why {
            model,
            test,
            is_forbidden,
            is_deep,
        } => {
            let asked = Asked {
                is_forbidden,
                is_deep,
            };
            answer_pair(rt, errors, PairQuestion::Reasons(asked), model, test)
        }
        Form::Draw {
            model,
            test,
            drawn,
            pictures,
        } => {
            let question = PairQuestion::Pictures(draw_request(drawn, pictures));
            answer_pair(rt, errors, question, model, test)
        }
        Form::Table {
            models,
            tests,
            format,
        } => {
            let models = wanted_files(rt, &models)?;
            answer_grid(rt, errors, table_question(format), &models, &tests)
        }
        Form::Report {
            models,
            tests,
            is_all,
            most,
        } => {
            let models = wanted_files(rt, &models)?;
            let question = GridQuestion::Page(PageRequest { is_all, most });
            answer_grid(rt, errors, question, &models, &tests)
        }
        Form::Diff {
            first,
            second,
            tests,
            format,
        } => {
            let models = two_files(rt, first, second)?;
            answer_grid(rt, errors, difference_question(format), &models, &tests)
        }
    }
}

fn answer<R, E: Print + IsTerminal + Sync>(rt: &R, errors: &E, words: &[&str]) -> RunEnd
where
    R: AllocGlobal
        + Clock
        + Eprint
        + Files
        + Input
        + Print
        + Threads
        + Wait
        + Copy
        + Drop
        + Send
        + Sync
        + 'static,
    R::Reader: Send + Sync + 'static,
{
    match form_of(rt.alloc(), words) {
        Ok(form) => tell_done(rt, answer_form(rt, errors, form)),
        Err(error) => tell_usage(rt, &error),
    }
}

fn run<R, E: Print + IsTerminal + Sync>(rt: &R, errors: &E) -> RunEnd
where
    R: AllocGlobal
        + Clock
        + Env
        + Eprint
        + Files
        + Input
        + Print
        + Threads
        + Wait
        + Copy
        + Drop
        + Send
        + Sync
        + 'static,
    R::Reader: Send + Sync + 'static,
{
    let words: Vec<String> = match env::args(rt) {
        Ok(words) => match words.collect(rt.alloc()) {
            Ok(words) => words,
            Err(_) => return tell_fault(rt, SessionFault::Memory),
        },
        Err(error) => return tell_words(rt, &error),
    };
    let texts: Vec<&str> = match words.iter().map(|word| word.as_str()).collect(rt.alloc()) {
        Ok(texts) => texts,
        Err(_) => return tell_fault(rt, SessionFault::Memory),
    };
    answer(rt, errors, &texts)
}

fn main(rt: HostRuntime) -> ExitCode {
    ExitCode::from(exit_status(run(&rt, &rt.stderr())))
}
