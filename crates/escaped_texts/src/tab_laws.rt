//! Laws of the definitions.

ghost use Rattle.std.specs.Prelude.{◌≡◌, ◌<◌, ℕ, List, [], All, length};
ghost use Rattle.std.specs.List.{AllPass, flat_map};
ghost use Rattle.escaped_texts.specs.Fields.{field_text, line_text, is_inside_field, fields_behind, behind_lines};

/// Lines are read back.
pub fn lines_are_read_back()
    // No byte of a field is a tab, a line feed or a carriage return.
    ensures fields { (bytes : List ℕ) → AllPass is_inside_field (field_text bytes) }
    // A reader of lines, each of one field or more, has their fields again.
    ensures lines { (lines : List (List (List ℕ))) → All (λ fields. 0 < length fields) lines
        → fields_behind (behind_lines []) (flat_map line_text lines) ≡ behind_lines lines }
{}
