//! The rules in words.

ghost use Rattle.std.specs.Prelude.{◌≡◌};
ghost use Rattle.fault_texts.specs.Words.{rule_words, litmus_words, cat_words, model_words, test_words, bench_words, script_words};

fn litmus_words(number: u8) -> &'static str
    ensures { result.now ≡ litmus_words number }
{
    match number {
        1 => "the first word must be `PPC`",
        2 => "a name must follow `PPC`, and the end of the line",
        3 =>
            "the init block must hold entries as `x=1;` and `0:r2=x;`, one for a location or register",
        4 => "an entry of the init block must not begin with a type",
        5 => "the header must name the threads in order, from `P0` on",
        6 => "a row must have as many cells as the header",
        7 =>
            "a cell must hold a known instruction or a label, and a condition must follow the cells",
        8 => "`r0` must not be the first address register, where it means 0",
        9 => "an offset must be 0",
        10 =>
            "a label must be defined once in its thread, and a branch must go to one of its thread",
        11 => "a branch must go forward",
        12 =>
            "`locations` and a condition must follow, over threads of the test and within the limits",
        13 => "`filter` and `final` are not supported",
        14 => "a comment must end",
        15 => "a byte outside comments and strings must be ASCII",
        16 => "a text must not be over 65,536 bytes",
        17 => "a test must not have over 8 threads",
        _ => "",
    }
}

fn cat_words(number: u8) -> &'static str
    ensures { result.now ≡ cat_words number }
{
    match number {
        1 => "no token begins with this byte",
        2 => "no model goes on so",
        3 => "an included file must be `cos.cat` or `stdlib.cat`",
        4 => "this part of the language is not supported",
        5 =>
            "a model must not have over 256 items, a group over 64 names, a function over 8 parameters",
        6 => "an expression must not have over 64 open `(`, `[` and `~`, nor over 1,024 operators",
        7 => "a text must not be over 65,536 bytes",
        _ => "",
    }
}

fn model_words(number: u8) -> &'static str
    ensures { result.now ≡ model_words number }
{
    match number {
        1 => "a name must be bound",
        2 => "an operator and a check must take their operands, which are sets or relations",
        3 => "a name of a recursive group must not stand under `~` or right of `\\` in that group",
        4 => "a group must bind a name once, and a parameter must stand once",
        5 => "a body of a recursive group must be a relation",
        6 => "a function must have its number of arguments, and no other name has any",
        7 => "an application must not be of size over 4,096",
        _ => "",
    }
}

fn test_words(number: u8) -> &'static str
    ensures { result.now ≡ test_words number }
{
    match number {
        1 => "a test must not have over 128 events",
        2 => "loads must not have over 16 values",
        3 => "a thread must not have over 4,096 free runs",
        4 => "a test must not have over 16,384 candidates",
        5 => "a run must not stop at a fault",
        6 => "a test must not have over 1,048,576 combinations of runs",
        _ => "",
    }
}

fn bench_words(number: u8) -> &'static str
    ensures { result.now ≡ bench_words number }
{
    match number {
        1 => "a test must have this name",
        2 => "a model must have this name",
        3 => "a thread of the test must have this number",
        4 => "an item of the model must have this number",
        5 => "the bench must not hold over 512 tests, 16 models or 524,288 outputs",
        6 => "the numbers of edits and of items must not be spent",
        _ => "",
    }
}

fn script_words(number: u8) -> &'static str
    ensures { result.now ≡ script_words number }
{
    match number {
        1 => "a line must be a command with its words",
        2 => "a text must end in a line `.`",
        _ => "",
    }
}

/// The words of the rule of this letter and number: L and C for the texts of tests and of models, M
/// and E for what is wrong with a model or a test whose text reads, X for the bench, Q for scripts.
/// No words where there is no such rule.
#[tactic(auto, unfolding(crate::specs::Words::rule_words))]
pub fn rule_words(letter: u8, number: u8) -> &'static str
    ensures { result.now ≡ rule_words letter number }
{
    match letter {
        b'L' => litmus_words(number),
        b'C' => cat_words(number),
        b'M' => model_words(number),
        b'E' => test_words(number),
        b'X' => bench_words(number),
        b'Q' => script_words(number),
        _ => "",
    }
}
