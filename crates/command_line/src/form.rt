//! What the words of a command line ask for.

ghost use Rattle.std.specs.Prelude.{◌≡◌, IfOk, IfErr, option_map, drop};
ghost use Rattle.session_script.specs.Requests.{word_at};
ghost use Rattle.command_line.specs.declared.option.OptionName.TheVariants as names;
ghost use Rattle.command_line.specs.Words.{words_of, borrowed_words, words_given};
ghost use Rattle.command_line.specs.Forms.{borrowed_word, asked_by_form, IsFormOf, IsNoForm, command_of, format_by, format_in, number_within, drawn_by, drawn_in, one_picture, more_pictures, pictures_by, pictures_in, workers_in, eval_of, table_command, diff_of, most_in, report_of, script_in, session_of, why_of, poll_in, watch_model, watch_models, watch_of, draw_of, taken, by_words, asked_by_words};

use crate::option::{Command, GivenOption, OptionName, has_option, number_given, takes_all};
use crate::words::{GivenWords, words_given};
use command_usage::{UsageFault, usage};
use std::alloc::{AllocError, Global};

/// The most workers.
const MOST_WORKERS: u64 = 32;

/// The most graphs of one text, and how many there are at most where no number is asked for.
const MOST_GRAPHS: u64 = 64;

const USUAL_GRAPHS: u64 = 16;

/// The most drawings of a page, and how many there are at most where no number is asked for.
const MOST_DRAWINGS: u64 = 4_096;

const USUAL_DRAWINGS: u64 = 200;

/// The most executions of a test.
const MOST_EXECUTIONS: u64 = 16_384;

/// The longest time between two looks at the files, in milliseconds, and the usual one.
const LONGEST_POLL: u64 = 60_000;

const USUAL_POLL: u64 = 500;

/// Which executions are drawn.
#[derive(Clone, Copy, Debug, PartialEq, Eq)]
pub enum Drawn {
    /// Those that the model keeps and that have what the test asks for.
    Shown,
    /// Those that the model forbids and that have what the test asks for.
    Forbidden,
    /// All, kept or forbidden.
    All,
}

/// As what executions are drawn.
#[derive(Clone, Copy, Debug, PartialEq, Eq)]
pub enum Pictures {
    /// As graphs in one text for `dot`, so many at most: 1 to 64.
    Graphs { most: u64 },
    /// As the graph of one execution, of this number among those that are drawn: 1 to 16,384.
    Graph { nth: u64 },
    /// As an SVG of one execution, of this number among those that are drawn: 1 to 16,384.
    Svg { nth: u64 },
    /// As SVGs one behind the other, so many at most: 1 to 64.
    Svgs { most: u64 },
}

/// How results are written.
#[derive(Clone, Copy, Debug, PartialEq, Eq)]
pub enum ResultFormat {
    /// As text for people.
    Plain,
    /// As lines whose fields are parted by tabs.
    Tab,
    /// As lines that are objects of JSON.
    Json,
}

/// What the program is asked to do.
#[derive(Debug, Drop)]
pub enum Form<'a> {
    /// A model and a test stand on standard input, with a line `.` between them.
    Stream,
    /// A model and a test stand in two files.
    Eval {
        model: &'a str,
        test: &'a str,
        is_json: bool,
    },
    /// The tests of some files in a table, under the models of others.
    Table {
        models: Vec<&'a str>,
        tests: Vec<&'a str>,
        format: ResultFormat,
    },
    /// Where the models of two files tell the tests of others apart.
    Diff {
        first: &'a str,
        second: &'a str,
        tests: Vec<&'a str>,
        format: ResultFormat,
    },
    /// A page of the tests of some files under the models of others, with so many drawings at most,
    /// of all tests or of those that tell models apart.
    Report {
        models: Vec<&'a str>,
        tests: Vec<&'a str>,
        is_all: bool,
        most: u64,
    },
    /// A script stands in a file, or on standard input: its commands are answered one after
    /// another, with so many workers.
    Session {
        script: Option<&'a str>,
        workers: u64,
    },
    /// Why the model of a file forbids what the test of another asks for, or why it forbids one
    /// execution; and in depth.
    Why {
        model: &'a str,
        test: &'a str,
        is_forbidden: bool,
        is_deep: bool,
    },
    /// The tests of some files under the models of others, again whenever a file changes, with so
    /// many workers. The files are looked at so often, in milliseconds, and not at all by 0.
    Watch {
        models: Vec<&'a str>,
        tests: Vec<&'a str>,
        workers: u64,
        poll: u64,
    },
    /// Pictures of executions of the test of a file under the model of another.
    Draw {
        model: &'a str,
        test: &'a str,
        drawn: Drawn,
        pictures: Pictures,
    },
}

// The word of this index, or the empty word.
fn word_at<'w, 'a>(words: &'w [&'a str], index: usize) -> &'a str
    ensures { result.now ≡ word_at (borrowed_words words.now) index }
{
    match words.get(index) {
        Some(word) => *word,
        None => "",
    }
}

// The words from this index on. Errors: want of memory.
fn words_from<'a>(
    alloc: Global,
    words: &[&'a str],
    index: usize,
) -> Result<Vec<&'a str>, AllocError>
    ensures { IfOk result (λ v. borrowed_words v.items ≡ drop index (borrowed_words words.now)) }
{
    let mut found = Vec::new(alloc);
    for i in index..words.len() {
        found.push(word_at(words, i))?;
    }
    Ok(found)
}

// A number from one to another, or the usual one where none is given.
fn number_within(
    options: &[GivenOption],
    name: OptionName,
    usual: u64,
    least: u64,
    most: u64,
) -> Option<u64>
    ensures { result ≡ number_within name usual least most options.now }
{
    match number_given(options, name) {
        Some(number) if number < least || most < number => None,
        Some(number) => Some(number),
        None => Some(usual),
    }
}

fn format_by(is_tab: bool, is_json: bool) -> Option<ResultFormat>
    ensures { result ≡ format_by is_tab is_json }
{
    match (is_tab, is_json) {
        (false, false) => Some(ResultFormat::Plain),
        (true, false) => Some(ResultFormat::Tab),
        (false, true) => Some(ResultFormat::Json),
        (true, true) => None,
    }
}

fn format_in(options: &[GivenOption]) -> Option<ResultFormat>
    ensures { result ≡ format_in options.now }
{
    format_by(
        has_option(options, OptionName::Tab),
        has_option(options, OptionName::Json),
    )
}

fn drawn_by(is_shown: bool, is_forbidden: bool, is_all: bool) -> Option<Drawn>
    ensures { result ≡ drawn_by is_shown is_forbidden is_all }
{
    match (is_shown, is_forbidden, is_all) {
        (_, false, false) => Some(Drawn::Shown),
        (false, true, false) => Some(Drawn::Forbidden),
        (false, false, true) => Some(Drawn::All),
        _ => None,
    }
}

fn drawn_in(options: &[GivenOption]) -> Option<Drawn>
    ensures { result ≡ drawn_in options.now }
{
    drawn_by(
        has_option(options, OptionName::Shown),
        has_option(options, OptionName::Forbidden),
        has_option(options, OptionName::All),
    )
}

fn one_picture(is_svg: bool, nth: Option<u64>) -> Option<Pictures>
    ensures { result ≡ one_picture is_svg nth }
{
    match nth {
        Some(nth) if is_svg => Some(Pictures::Svg { nth }),
        Some(nth) => Some(Pictures::Graph { nth }),
        None => None,
    }
}

fn more_pictures(is_svg: bool, most: Option<u64>) -> Option<Pictures>
    ensures { result ≡ more_pictures is_svg most }
{
    match most {
        Some(most) if is_svg => Some(Pictures::Svgs { most }),
        Some(most) => Some(Pictures::Graphs { most }),
        None => None,
    }
}

fn pictures_by(is_svg: bool, has_most: bool, options: &[GivenOption]) -> Option<Pictures>
    ensures { result ≡ pictures_by is_svg has_most options.now }
{
    let has_nth = has_option(options, OptionName::Nth);
    if has_most && has_nth {
        None
    } else if has_nth || is_svg && !has_most {
        let nth = number_within(options, OptionName::Nth, 1, 1, MOST_EXECUTIONS);
        one_picture(is_svg, nth)
    } else {
        let most = number_within(options, OptionName::Most, USUAL_GRAPHS, 1, MOST_GRAPHS);
        more_pictures(is_svg, most)
    }
}

// One picture by `--nth`, and by `--svg` without `--most`; else as many as `--most` says.
fn pictures_in(options: &[GivenOption]) -> Option<Pictures>
    ensures { result ≡ pictures_in options.now }
{
    let is_svg = has_option(options, OptionName::Svg);
    pictures_by(is_svg, has_option(options, OptionName::Most), options)
}

fn eval_form<'a>(words: &GivenWords<'a>) -> Option<Form<'a>>
    ensures { option_map asked_by_form result ≡ eval_of (words_of words.now) }
{
    if words.paths.len() != 2 {
        return None;
    }
    Some(Form::Eval {
        model: word_at(&words.paths, 0),
        test: word_at(&words.paths, 1),
        is_json: has_option(&words.options, OptionName::Json),
    })
}

fn table_form<'a>(words: GivenWords<'a>) -> Option<Form<'a>>
    ensures { option_map asked_by_form result ≡ table_command (words_of words.entry) }
{
    match format_in(&words.options) {
        Some(format) if !words.paths.is_empty() && !words.last_paths.is_empty() => {
            Some(Form::Table {
                models: words.paths,
                tests: words.last_paths,
                format,
            })
        }
        _ => None,
    }
}

fn diff_form<'a>(alloc: Global, words: &GivenWords<'a>) -> Result<Option<Form<'a>>, AllocError>
    ensures { IfOk result (λ f. option_map asked_by_form f ≡ diff_of (words_of words.now)) }
{
    match format_in(&words.options) {
        Some(format) if words.paths.len() > 2 => Ok(Some(Form::Diff {
            first: word_at(&words.paths, 0),
            second: word_at(&words.paths, 1),
            tests: words_from(alloc, &words.paths, 2)?,
            format,
        })),
        _ => Ok(None),
    }
}

fn most_in(options: &[GivenOption]) -> Option<u64>
    ensures { result ≡ most_in options.now }
{
    number_within(options, OptionName::Most, USUAL_DRAWINGS, 1, MOST_DRAWINGS)
}

fn report_form<'a>(words: GivenWords<'a>) -> Option<Form<'a>>
    ensures { option_map asked_by_form result ≡ report_of (words_of words.entry) }
{
    let is_all = has_option(&words.options, OptionName::All);
    match most_in(&words.options) {
        Some(most) if !words.paths.is_empty() && !words.last_paths.is_empty() => {
            Some(Form::Report {
                models: words.paths,
                tests: words.last_paths,
                is_all,
                most,
            })
        }
        _ => None,
    }
}

fn workers_in(options: &[GivenOption]) -> Option<u64>
    ensures { result ≡ workers_in options.now }
{
    number_within(options, OptionName::Workers, 0, 0, MOST_WORKERS)
}

fn script_in<'a>(paths: &[&'a str]) -> Option<&'a str>
    ensures { borrowed_word result ≡ script_in (borrowed_words paths.now) }
{
    if paths.len() == 0 {
        None
    } else {
        Some(word_at(paths, 0))
    }
}

fn session_form<'a>(words: &GivenWords<'a>) -> Option<Form<'a>>
    ensures { option_map asked_by_form result ≡ session_of (words_of words.now) }
{
    match workers_in(&words.options) {
        Some(workers) if words.paths.len() < 2 => Some(Form::Session {
            script: script_in(&words.paths),
            workers,
        }),
        _ => None,
    }
}

fn why_form<'a>(words: &GivenWords<'a>) -> Option<Form<'a>>
    ensures { option_map asked_by_form result ≡ why_of (words_of words.now) }
{
    if words.paths.len() != 2 {
        return None;
    }
    Some(Form::Why {
        model: word_at(&words.paths, 0),
        test: word_at(&words.paths, 1),
        is_forbidden: has_option(&words.options, OptionName::Forbidden),
        is_deep: has_option(&words.options, OptionName::Deep),
    })
}

fn poll_in(options: &[GivenOption]) -> Option<u64>
    ensures { result ≡ poll_in options.now }
{
    number_within(options, OptionName::Poll, USUAL_POLL, 0, LONGEST_POLL)
}

// The first path is of a model, and the others are of tests.
fn watch_model_form<'a>(
    alloc: Global,
    words: &GivenWords<'a>,
    workers: u64,
    poll: u64,
) -> Result<Option<Form<'a>>, AllocError>
    ensures { IfOk result (λ f. option_map asked_by_form f
        ≡ watch_model (words_of words.now) workers poll) }
{
    if words.paths.len() < 2 {
        return Ok(None);
    }
    let mut models = Vec::new(alloc);
    models.push(word_at(&words.paths, 0))?;
    Ok(Some(Form::Watch {
        models,
        tests: words_from(alloc, &words.paths, 1)?,
        workers,
        poll,
    }))
}

// The paths before `--` are of models, and those behind it of tests.
fn watch_models_form<'a>(words: GivenWords<'a>, workers: u64, poll: u64) -> Option<Form<'a>>
    ensures { option_map asked_by_form result ≡ watch_models (words_of words.entry) workers poll }
{
    if words.paths.is_empty() || words.last_paths.is_empty() {
        return None;
    }
    Some(Form::Watch {
        models: words.paths,
        tests: words.last_paths,
        workers,
        poll,
    })
}

fn watch_form<'a>(alloc: Global, words: GivenWords<'a>) -> Result<Option<Form<'a>>, AllocError>
    ensures { IfOk result (λ f. option_map asked_by_form f ≡ watch_of (words_of words.entry)) }
{
    match (workers_in(&words.options), poll_in(&words.options)) {
        (Some(workers), Some(poll)) => {
            if has_option(&words.options, OptionName::Dashes) {
                Ok(watch_models_form(words, workers, poll))
            } else {
                watch_model_form(alloc, &words, workers, poll)
            }
        }
        _ => Ok(None),
    }
}

fn draw_form<'a>(words: &GivenWords<'a>) -> Option<Form<'a>>
    ensures { option_map asked_by_form result ≡ draw_of (words_of words.now) }
{
    if words.paths.len() != 2 {
        return None;
    }
    match (drawn_in(&words.options), pictures_in(&words.options)) {
        (Some(drawn), Some(pictures)) => Some(Form::Draw {
            model: word_at(&words.paths, 0),
            test: word_at(&words.paths, 1),
            drawn,
            pictures,
        }),
        _ => None,
    }
}

fn command_of(word: &str) -> Option<Command>
    ensures { result ≡ command_of word.now }
{
    if word == "eval" {
        Some(Command::Eval)
    } else if word == "table" {
        Some(Command::Table)
    } else if word == "diff" {
        Some(Command::Diff)
    } else if word == "report" {
        Some(Command::Report)
    } else if word == "session" {
        Some(Command::Session)
    } else if word == "why" {
        Some(Command::Why)
    } else if word == "watch" {
        Some(Command::Watch)
    } else if word == "draw" {
        Some(Command::Draw)
    } else {
        None
    }
}

// What a command asks for with these words, each of whose options it has.
fn taken_form<'a>(
    alloc: Global,
    command: Command,
    words: GivenWords<'a>,
) -> Result<Option<Form<'a>>, AllocError>
    ensures { IfOk result (λ f. option_map asked_by_form f ≡ taken command (words_of words.entry)) }
{
    match command {
        Command::Eval => Ok(eval_form(&words)),
        Command::Table => Ok(table_form(words)),
        Command::Diff => diff_form(alloc, &words),
        Command::Report => Ok(report_form(words)),
        Command::Session => Ok(session_form(&words)),
        Command::Why => Ok(why_form(&words)),
        Command::Watch => watch_form(alloc, words),
        Command::Draw => Ok(draw_form(&words)),
    }
}

fn command_form<'a>(
    alloc: Global,
    command: Command,
    words: &[&'a str],
) -> Result<Option<Form<'a>>, AllocError>
    ensures { IfOk result (λ f. option_map asked_by_form f
        ≡ by_words command (words_given (borrowed_words words.now))) }
{
    let given = words_given(alloc, words)?;
    if given.awaiting.is_some() || !takes_all(command, &given.options) {
        return Ok(None);
    }
    taken_form(alloc, command, given)
}

fn form_in<'a>(alloc: Global, words: &[&'a str]) -> Result<Option<Form<'a>>, AllocError>
    ensures { IfOk result (λ f. option_map asked_by_form f
        ≡ asked_by_words (borrowed_words words.now)) }
{
    if words.len() < 2 {
        return Ok(Some(Form::Stream));
    }
    match command_of(word_at(words, 1)) {
        Some(command) => command_form(alloc, command, &words[2..]),
        None => Ok(None),
    }
}

/// The form that these words have, the program's own name first. Errors: usage, help or version for
/// words that have no form, or want of memory.
pub fn form_of<'a>(alloc: Global, words: &'a [&'a str]) -> Result<Form<'a>, UsageFault>
    // A form is answered just where the words have one, and it is that one.
    ensures form { IfOk result (IsFormOf (borrowed_words words.now)) }
    // A refusal is of words that have none.
    ensures none { IfErr result (IsNoForm (borrowed_words words.now)) }
{
    match form_in(alloc, words) {
        Ok(Some(form)) => Ok(form),
        Ok(None) => Err(usage(alloc, words)),
        Err(e) => Err(UsageFault::Memory(e)),
    }
}
