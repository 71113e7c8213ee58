//! Prints the words of each rule, as the tables of docs/FORMATS.md have them.

use fault_texts::rule_words;
use std::io;

/// The letters of the rules, and how many rules each has.
const LETTERS: [(u8, u8); 6] = [
    (b'L', 17),
    (b'C', 7),
    (b'M', 7),
    (b'E', 6),
    (b'X', 6),
    (b'Q', 2),
];

fn print_rules<R: Print>(rt: &R, letter: u8, count: u8) -> io::Result<()> {
    for number in 0..count {
        let words = rule_words(letter, number + 1);
        rt.println(format_args!("| {}{} | {words} |", letter as char, number + 1))?;
    }
    Ok(())
}

/// Prints the words of every rule.
pub fn show_all<R: Print>(rt: &R) -> io::Result<()> {
    for (letter, count) in LETTERS {
        print_rules(rt, letter, count)?;
    }
    Ok(())
}
