//! Laws of the definitions.

ghost use Rattle.std.specs.Prelude.{◌≡◌, List, ℕ, true, Some, None};
ghost use Rattle.text_values.specs.Layout.{comment_of};
ghost use Rattle.text_laws.specs.Comments.{begins_comment, BeginsWithComment};

/// Comments nest: the comment that a text begins with, after `(*`, holds whole comments and bytes
/// that begin neither `(*` nor `*)`, up to its own `*)`.
pub fn comments_nest()
    // Where an end is found, it is that comment's.
    ensures found { (bytes : List ℕ) (n : ℕ) → begins_comment bytes ≡ true
        → comment_of bytes ≡ Some n → BeginsWithComment bytes n }
    // A comment ends nowhere else.
    ensures only { (bytes : List ℕ) (n : ℕ) → BeginsWithComment bytes n
        → comment_of bytes ≡ Some n }
    // A text in which no end is found begins with no comment.
    ensures unended { (bytes : List ℕ) (n : ℕ) → comment_of bytes ≡ None → BeginsWithComment bytes n
        → ⊥ }
{}
