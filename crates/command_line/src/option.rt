//! The options of a command line.

ghost use Rattle.std.specs.Prelude.{◌≡◌};
ghost use Rattle.command_line.specs.Options.{flag_of, awaiting_of, setting_of, numbered, number_in, has_front, number_behind, number_given, has_option, is_of_draw, takes_option, takes_all};

use session_script::number_of;

/// The name of an option.
#[derive(Clone, Copy, Debug, PartialEq, Eq)]
pub enum OptionName {
    /// `--shown`
    Shown,
    /// `--forbidden`
    Forbidden,
    /// `--all`
    All,
    /// `--deep`
    Deep,
    /// `--svg`
    Svg,
    /// `--tab`
    Tab,
    /// `--json`
    Json,
    /// `--workers N`
    Workers,
    /// `--most N`
    Most,
    /// `--nth N`
    Nth,
    /// `--poll N`
    Poll,
    /// `--`, behind which all words are paths.
    Dashes,
    /// No option, one that stands twice, or one without its number.
    Unknown,
}

/// An option as it is given.
#[derive(Clone, Copy, Debug, PartialEq, Eq)]
pub struct GivenOption {
    /// Its name.
    pub name: OptionName,
    /// Its number; 0 where it has none.
    pub number: u64,
}

/// The word of a command.
#[derive(Clone, Copy, Debug, PartialEq, Eq)]
pub enum Command {
    /// `eval`
    Eval,
    /// `table`
    Table,
    /// `diff`
    Diff,
    /// `report`
    Report,
    /// `session`
    Session,
    /// `why`
    Why,
    /// `watch`
    Watch,
    /// `draw`
    Draw,
}

// The option that a word without a number is.
pub(crate) fn flag_of(word: &str) -> Option<OptionName>
    ensures { result ≡ flag_of word.now }
{
    if word == "--" {
        Some(OptionName::Dashes)
    } else if word == "--shown" {
        Some(OptionName::Shown)
    } else if word == "--forbidden" {
        Some(OptionName::Forbidden)
    } else if word == "--all" {
        Some(OptionName::All)
    } else if word == "--deep" {
        Some(OptionName::Deep)
    } else if word == "--svg" {
        Some(OptionName::Svg)
    } else if word == "--tab" {
        Some(OptionName::Tab)
    } else if word == "--json" {
        Some(OptionName::Json)
    } else {
        None
    }
}

// The option whose number is the next word.
pub(crate) fn awaiting_of(word: &str) -> Option<OptionName>
    ensures { result ≡ awaiting_of word.now }
{
    if word == "--workers" {
        Some(OptionName::Workers)
    } else if word == "--most" {
        Some(OptionName::Most)
    } else if word == "--nth" {
        Some(OptionName::Nth)
    } else if word == "--poll" {
        Some(OptionName::Poll)
    } else {
        None
    }
}

// The option that these digits give a number: an unknown one where they make none below 2^64.
pub(crate) fn numbered(name: OptionName, digits: Option<u64>) -> GivenOption
    ensures { result ≡ numbered name digits }
{
    match digits {
        Some(number) => GivenOption { name, number },
        None => GivenOption {
            name: OptionName::Unknown,
            number: 0,
        },
    }
}

// The option that a word with its number is, as `--most=4`.
pub(crate) fn setting_of(word: &str) -> GivenOption
    ensures { result ≡ setting_of word.now }
{
    if begins(word, "--workers=") {
        numbered(OptionName::Workers, number_behind(word, "--workers="))
    } else if begins(word, "--most=") {
        numbered(OptionName::Most, number_behind(word, "--most="))
    } else if begins(word, "--nth=") {
        numbered(OptionName::Nth, number_behind(word, "--nth="))
    } else if begins(word, "--poll=") {
        numbered(OptionName::Poll, number_behind(word, "--poll="))
    } else {
        numbered(OptionName::Unknown, None)
    }
}

// The number that the digits of a word make. The empty word makes none.
pub(crate) fn number_in(word: &[u8]) -> Option<u64>
    ensures { result ≡ number_in word.now }
{
    if word.len() == 0 {
        return None;
    }
    number_of(word)
}

fn begins(word: &str, front: &str) -> bool
    ensures { result ≡ has_front word.now front.now }
{
    word.as_bytes().strip_prefix(front.as_bytes()).is_some()
}

// The number that stands behind this front of a word.
fn number_behind(word: &str, front: &str) -> Option<u64>
    ensures { result ≡ number_behind word.now front.now }
{
    match word.as_bytes().strip_prefix(front.as_bytes()) {
        Some(digits) => number_in(digits),
        None => None,
    }
}

// The number of the option of this name, if it is given.
pub(crate) fn number_given(options: &[GivenOption], name: OptionName) -> Option<u64>
    ensures { result ≡ number_given name options.now }
{
    for option in options {
        if option.name == name {
            return Some(option.number);
        }
    }
    None
}

pub(crate) fn has_option(options: &[GivenOption], name: OptionName) -> bool
    ensures { result ≡ has_option name options.now }
{
    number_given(options, name).is_some()
}

// Whether a command has this option.
pub(crate) fn takes(command: Command, name: OptionName) -> bool
    ensures { result ≡ takes_option command name }
{
    match command {
        Command::Eval => matches!(name, OptionName::Json),
        Command::Table => matches!(
            name,
            OptionName::Dashes | OptionName::Tab | OptionName::Json
        ),
        Command::Diff => matches!(name, OptionName::Tab | OptionName::Json),
        Command::Report => {
            matches!(
                name,
                OptionName::Dashes | OptionName::All | OptionName::Most
            )
        }
        Command::Session => matches!(name, OptionName::Workers),
        Command::Why => matches!(name, OptionName::Forbidden | OptionName::Deep),
        Command::Watch => matches!(
            name,
            OptionName::Dashes | OptionName::Workers | OptionName::Poll
        ),
        Command::Draw => is_of_draw(name),
    }
}

fn is_of_draw(name: OptionName) -> bool
    ensures { result ≡ is_of_draw name }
{
    matches!(
        name,
        OptionName::Shown
            | OptionName::Forbidden
            | OptionName::All
            | OptionName::Most
            | OptionName::Nth
            | OptionName::Svg
    )
}

// Whether the command has each of these options.
pub(crate) fn takes_all(command: Command, options: &[GivenOption]) -> bool
    ensures { result ≡ takes_all command options.now }
{
    for option in options {
        if !takes(command, option.name) {
            return false;
        }
    }
    true
}
