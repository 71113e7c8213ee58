//! What the command line says of itself: usage, help and version, as clap words them.
#![tactic(auto)]

use clap::builder::ValueRange;
use clap::error::ErrorKind;
use clap::{Arg, ArgAction, Command, Error};
use std::alloc::{AllocError, Global};

mod fault;

pub use fault::UsageFault;

const ABOUT: &str =
    "Says which final states a memory model allows a litmus test to end in. With no \
    words, standard input holds the model, a line that is exactly `.`, and the test.";

const AFTER: &str =
    "What was asked for goes to standard output. Exit status: 0 done, 1 a text or a \
    command was refused, 2 usage or help, 3 a fault of reading, writing or memory. A path that begins with `-` \
    or `@` is written with `./` before it; in a list of paths `@FILE` stands for those that the file holds, one a line.\n\nExample: pipitsolder table sc.cat power.cat -- MP.litmus CoWR.litmus";

const VERSION: &str = "0.1.0";

const SESSION_AFTER: &str =
    "Commands with a text, which ends in a line that is exactly `.`: test, model M, init T, \
    thread T K, cond T, locations T, item M N, insert M N. Without: remove M N, drop test T, drop model M, \
    items M, show T M, counts T M, table M .., diff M M.\n\nExample: printf 'model sc\\nacyclic \
    po|rf|fr|co\\n.\\nitems sc\\n' | pipitsolder session\n\
    Example: pipitsolder session script.txt --workers 4";

const DRAW_AFTER: &str = "Example: pipitsolder draw power.cat MP.litmus | dot -Tsvg -O\n\
    Example: pipitsolder draw --svg --forbidden power.cat MP+lwsync+addr.litmus > forbidden.svg";

// What an argument is.
#[derive(Clone, Copy)]
enum Kind {
    // A file that is to be named.
    File,
    // One file or more.
    Files,
    // One file or more, behind `--`.
    LastFiles,
    // A file that need not be named.
    OptionalFile,
    // A number, behind two dashes and this word.
    Number(&'static str),
    // Two dashes and the argument's name, with none of these arguments beside it.
    Flag(&'static [&'static str]),
    // A number, behind two dashes and this word, with none of these arguments beside it.
    NumberAlone(&'static str, &'static [&'static str]),
}

// An argument of a form.
#[derive(Clone, Copy)]
struct Argument {
    name: &'static str,
    help: &'static str,
    kind: Kind,
}

// A form of the command line: the word behind the name of the program, and its arguments.
#[derive(Clone, Copy)]
struct Form {
    name: &'static str,
    about: &'static str,
    arguments: &'static [Argument],
    after: &'static str,
}

const MODEL: Argument = Argument {
    name: "MODEL",
    help: "The file of a model",
    kind: Kind::File,
};

const TEST: Argument = Argument {
    name: "TEST",
    help: "The file of a test",
    kind: Kind::File,
};

const TESTS: Argument = Argument {
    name: "TEST",
    help: "Files of tests, or `@FILE`",
    kind: Kind::Files,
};

const WATCHED_TESTS: Argument = Argument {
    name: "TEST",
    help: "Files of tests",
    kind: Kind::Files,
};

const MODELS: Argument = Argument {
    name: "MODEL",
    help: "Files of models, or `@FILE`",
    kind: Kind::Files,
};

const LAST_TESTS: Argument = Argument {
    name: "TEST",
    help: "Files of tests, or `@FILE`, behind `--`",
    kind: Kind::LastFiles,
};

const TAB: Argument = Argument {
    name: "tab",
    help: "Lines whose fields are parted by tabs, for programs",
    kind: Kind::Flag(&["json"]),
};

const JSON: Argument = Argument {
    name: "json",
    help: "Lines that are objects of JSON, for programs",
    kind: Kind::Flag(&[]),
};

const EVAL: Form = Form {
    name: "eval",
    about: "Which final states a model allows a test to end in, from two files",
    arguments: &[
        Argument {
            name: "MODEL",
            help: "A file that holds a model in the cat language",
            kind: Kind::File,
        },
        Argument {
            name: "TEST",
            help: "A file that holds a litmus test for Power (PPC)",
            kind: Kind::File,
        },
        JSON,
    ],
    after: "Example: pipitsolder eval power.cat MP.litmus",
};

const TABLE: Form = Form {
    name: "table",
    about: "A table of the tests of some files under the models of others",
    arguments: &[MODELS, LAST_TESTS, TAB, JSON],
    after: "With --json each test has a line under each model: the Observation and the witnesses, or its \
        refusal. `eval --json` has the states too.\n\n\
        Example: pipitsolder table --tab sc.cat power.cat -- MP.litmus @more",
};

const DIFF: Form = Form {
    name: "diff",
    about: "Which tests two models tell apart, and by which final states",
    arguments: &[
        Argument {
            name: "FIRST",
            help: "The file of a model",
            kind: Kind::File,
        },
        Argument {
            name: "SECOND",
            help: "The file of another model",
            kind: Kind::File,
        },
        TESTS,
        TAB,
        JSON,
    ],
    after: "Example: pipitsolder diff sc.cat power.cat MP.litmus CoWR.litmus",
};

const REPORT: Form = Form {
    name: "report",
    about: "A page of the tests of some files under the models of others, for a browser: standard \
        output is one file of HTML",
    arguments: &[
        MODELS,
        LAST_TESTS,
        Argument {
            name: "all",
            help: "Drawings of all tests, not of those alone that tell models apart",
            kind: Kind::Flag(&[]),
        },
        Argument {
            name: "N",
            help: "At most so many drawings, 1 to 4096: otherwise 200",
            kind: Kind::Number("most"),
        },
    ],
    after: "Example: pipitsolder report sc.cat power.cat -- MP.litmus CoWR.litmus > page.html",
};

const SESSION: Form = Form {
    name: "session",
    about: "Answers the commands of a script: edits of tests and models, and questions",
    arguments: &[
        Argument {
            name: "SCRIPT",
            help: "The file of a script, in place of standard input",
            kind: Kind::OptionalFile,
        },
        Argument {
            name: "N",
            help: "How many threads run the jobs, 0 to 32: 0 is the program itself",
            kind: Kind::Number("workers"),
        },
    ],
    after: SESSION_AFTER,
};

const WHY: Form = Form {
    name: "why",
    about: "Why a model forbids what a test asks for, or an execution that it keeps",
    arguments: &[
        MODEL,
        TEST,
        Argument {
            name: "forbidden",
            help: "The reasons also where an execution is kept",
            kind: Kind::Flag(&[]),
        },
        Argument {
            name: "deep",
            help: "Each name of a step with the name inside it",
            kind: Kind::Flag(&[]),
        },
    ],
    after: "Example: pipitsolder why --deep power.cat MP+lwsync+addr.litmus",
};

const DRAW: Form = Form {
    name: "draw",
    about: "Drawings of executions, for dot",
    arguments: &[
        MODEL,
        TEST,
        Argument {
            name: "shown",
            help: "Those that are kept and have what the test asks for: the default",
            kind: Kind::Flag(&["forbidden", "all"]),
        },
        Argument {
            name: "forbidden",
            help: "Those that are forbidden and have what the test asks for",
            kind: Kind::Flag(&["all"]),
        },
        Argument {
            name: "all",
            help: "All, kept or forbidden",
            kind: Kind::Flag(&[]),
        },
        Argument {
            name: "svg",
            help: "As SVG: the first, that of `--nth`, or so many as `--most` says",
            kind: Kind::Flag(&[]),
        },
        Argument {
            name: "K",
            help: "The drawing of this number alone, 1 to 16384",
            kind: Kind::NumberAlone("nth", &["N"]),
        },
        Argument {
            name: "N",
            help: "At most so many drawings, 1 to 64: otherwise 16",
            kind: Kind::Number("most"),
        },
    ],
    after: DRAW_AFTER,
};

const WATCH_AFTER: &str =
    "Several models stand before `--`, and the tests behind it. A path that is typed is read \
    again at once. `jobs` says how many computations a version took. The end of the input (control-D) ends it.\n\n\
    Example: pipitsolder watch power.cat MP.litmus CoWR.litmus\n\
    Example: pipitsolder watch sc.cat power.cat -- MP.litmus CoWR.litmus";

const WATCH: Form = Form {
    name: "watch",
    about: "Tests under models, and what changes with each later version of a file",
    arguments: &[
        MODEL,
        WATCHED_TESTS,
        Argument {
            name: "N",
            help: "How many threads run the jobs, 0 to 32: 0 is the program itself",
            kind: Kind::Number("workers"),
        },
        Argument {
            name: "MS",
            help: "How many milliseconds lie between two looks at the files, 0 to 60000: otherwise 500; 0 is no \
                look, so a file is read where it is typed",
            kind: Kind::Number("poll"),
        },
    ],
    after: WATCH_AFTER,
};

// In the order of the usage.
const FORMS: [Form; 8] = [EVAL, TABLE, DIFF, REPORT, SESSION, WHY, DRAW, WATCH];

// How many values a positional argument takes.
fn values_of(kind: Kind) -> ValueRange {
    match kind {
        Kind::Files | Kind::LastFiles => ValueRange::new(1..),
        _ => ValueRange::SINGLE,
    }
}

// An argument that has its place among the words.
fn file_argument<'a>(alloc: Global, argument: Argument) -> Arg<'a> {
    let kind = argument.kind;
    Arg::new(alloc, argument.name)
        .help(argument.help)
        .required(!matches!(kind, Kind::OptionalFile))
        .num_args(values_of(kind))
        .last(matches!(kind, Kind::LastFiles))
        .action(ArgAction::Set)
}

// An argument behind two dashes and this word.
fn option<'a>(alloc: Global, argument: Argument, long: &'static str, action: ArgAction) -> Arg<'a> {
    Arg::new(alloc, argument.name)
        .long(long)
        .help(argument.help)
        .action(action)
}

fn argument_of<'a>(alloc: Global, argument: Argument) -> Result<Arg<'a>, AllocError> {
    match argument.kind {
        Kind::Number(long) => Ok(option(alloc, argument, long, ArgAction::Set)),
        Kind::Flag(others) => {
            option(alloc, argument, argument.name, ArgAction::SetTrue).conflicts_with_all(others)
        }
        Kind::NumberAlone(long, others) => {
            option(alloc, argument, long, ArgAction::Set).conflicts_with_all(others)
        }
        _ => Ok(file_argument(alloc, argument)),
    }
}

fn arguments_of<'a>(alloc: Global, arguments: &[Argument]) -> Result<Vec<Arg<'a>>, AllocError> {
    let mut built = Vec::new(alloc);
    for argument in arguments {
        built.push(argument_of(alloc, *argument)?)?;
    }
    Ok(built)
}

// The command of this name, without arguments.
fn bare_command<'a>(alloc: Global, form: Form) -> Command<'a> {
    Command::new(alloc, form.name)
        .about(form.about)
        .after_help(form.after)
}

fn command_of<'a>(alloc: Global, form: Form) -> Result<Command<'a>, AllocError> {
    let arguments = arguments_of(alloc, form.arguments)?;
    bare_command(alloc, form).args(arguments)
}

fn commands<'a>(alloc: Global) -> Result<Vec<Command<'a>>, AllocError> {
    let mut commands = Vec::new(alloc);
    for form in FORMS {
        commands.push(command_of(alloc, form)?)?;
    }
    Ok(commands)
}

fn program<'a>(alloc: Global) -> Result<Command<'a>, AllocError> {
    let commands = commands(alloc)?;
    Command::new(alloc, "pipitsolder")
        .about(ABOUT)
        .after_help(AFTER)
        .version(VERSION)
        .subcommands(commands)
}

// What is told of words of this subcommand that clap takes and that have no form.
fn no_form(subcommand: Option<&str>) -> &'static str {
    match subcommand {
        Some("session") => "no form has these words; `--workers` takes a number from 0 to 32",
        Some("report") => "no form has these words; `--most` takes a number from 1 to 4096",
        Some("watch") => {
            "no form has these words; `--workers` takes a number from 0 to 32, and `--poll` one \
            from 0 to 60000"
        }
        Some("draw") => {
            "no form has these words; `--most` takes a number from 1 to 64, and `--nth` one from 1 \
            to 16384"
        }
        _ => "no form has these words",
    }
}

// What clap says of words that have no form. It takes a few such words, as `eval -- A B`.
fn refusal<'a>(alloc: Global, words: &'a [&'a str]) -> Result<Error, AllocError> {
    let mut program = program(alloc)?;
    match program.try_get_matches_from_mut(words) {
        Ok(matches) => {
            let told = no_form(matches.subcommand_name());
            program.error(ErrorKind::UnknownArgument, told)
        }
        Err(error) => Ok(error),
    }
}

// How clap begins a line that tells to write a word behind `--`, where most forms take none.
const ASTRAY: &str = "  tip: to pass '";

// The lines of a text but for those that lead astray, and for an empty one behind another.
fn without_tip(alloc: Global, text: &str) -> Result<String, AllocError> {
    let mut kept = String::new(alloc);
    let mut is_behind_empty = false;
    for line in text.split_inclusive('\n') {
        let is_empty = line == "\n";
        if !line.starts_with(ASTRAY) && !(is_empty && is_behind_empty) {
            kept.push_str(line)?;
            is_behind_empty = is_empty;
        }
    }
    Ok(kept)
}

fn usage_text<'a>(alloc: Global, words: &'a [&'a str]) -> Result<String, AllocError> {
    let error = refusal(alloc, words)?;
    if matches!(error.kind(), ErrorKind::OutOfMemory) {
        return Err(AllocError);
    }
    let text = format!(in alloc; "{error}")?;
    without_tip(alloc, text.as_str())
}

/// Clap's usage, help or version for the words of a command line that have no form, the program's
/// own name first; or want of memory.
pub fn usage<'a>(alloc: Global, words: &'a [&'a str]) -> UsageFault {
    match usage_text(alloc, words) {
        Ok(text) => UsageFault::Words(text),
        Err(e) => UsageFault::Memory(e),
    }
}
