//! Laws of the definitions.

ghost use Rattle.std.specs.Prelude.{◌≡◌, ◌<◌, ◌^◌, ◌++◌, ℕ, List, true, All, decimal};
ghost use Rattle.std.specs.List.{AllPass};
ghost use Rattle.escaped_texts.specs.Strings.{is_ascii_printable, string_text};
ghost use Rattle.escaped_texts.specs.Reading.{IsStringOf};

/// A string is read back, and no byte of it ends a line.
pub fn strings_are_read_back()
    // A reader of JSON has the bytes again, and the last quote is the one that closes.
    ensures said { (bytes : List ℕ) → All (λ b. b < 256) bytes
        → IsStringOf (string_text bytes) bytes }
    // All of it is printable ASCII.
    ensures bytes { (bytes : List ℕ) → All (λ b. b < 256) bytes
        → AllPass is_ascii_printable (string_text bytes) }
{}
