//! Laws of the definitions.

ghost use Rattle.std.specs.Prelude.{◌≡◌, ◌++◌, ℕ, List, true, false, All, map};
ghost use Rattle.std.specs.List.{AllPass, concat};
ghost use Rattle.escaped_texts.specs.Escaped.{escaped, read_from, shown_byte, is_safe, HasEntitiesOnly};
ghost use Rattle.escaped_texts.specs.Elements.{Attribute, open_tag, element};
ghost use Rattle.escaped_texts.specs.Balanced.{ElementNames, MarkupReader, Content, Quoted, markup_behind, is_void, is_tag_name, are_named, IsBalanced};

/// A text of anyone stays the text that it is, whatever its bytes.
pub fn texts_are_no_markup()
    // Its bytes are ASCII, and neither an angle bracket nor a quote is among them.
    ensures bytes { (text : List ℕ) → AllPass is_safe (escaped text) }
    // A reader of entities has the text again, a byte that is not shown as `?`.
    ensures read { (text : List ℕ) → read_from 0 (escaped text) ≡ map shown_byte text }
    // Each `&` in it begins one of the five entities.
    ensures entities { (text : List ℕ) → HasEntitiesOnly (escaped text) }
    // Between tags a reader of the page stays there all along.
    ensures content { (text before after : List ℕ) (around : ElementNames) → escaped text
        ≡ before ++ after
        → markup_behind (Content around) before ≡ Content around }
    // So it stays in the value of an attribute.
    ensures value { (text before after name : List ℕ) (around : ElementNames)
        → escaped text ≡ before ++ after
        → markup_behind (Quoted name around) before ≡ Quoted name around }
{}

/// Elements close in order.
pub fn elements_are_balanced()
    // A text of anyone is balanced.
    ensures texts { (text : List ℕ) → IsBalanced (escaped text) }
    // So are balanced parts, one behind the other.
    ensures parts { (parts : List (List ℕ)) → All IsBalanced parts → IsBalanced (concat parts) }
    // So is an element with balanced bytes inside.
    ensures elements { (name inside : List ℕ) (attributes : List Attribute)
        → is_tag_name name ≡ true → is_void name ≡ false → are_named attributes ≡ true
        → IsBalanced inside → IsBalanced (element name attributes inside) }
    // So is the one tag of an element that has no tag that closes.
    ensures void_elements { (name : List ℕ) (attributes : List Attribute)
        → is_tag_name name ≡ true → is_void name ≡ true → are_named attributes ≡ true
        → IsBalanced (open_tag name attributes) }
{}
