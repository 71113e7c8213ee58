//! Laws of the lines.

ghost use Rattle.std.specs.Prelude.{◌≡◌, ℕ, Some};
ghost use Rattle.std.specs.List.{Contains};
ghost use Rattle.draw_graph.specs.declared.drawing.Drawing.{Drawing};
ghost use Rattle.draw_layout.specs.declared.picture.Position.{Position};
ghost use Rattle.draw_scene.specs.Laws.{IsBoxIn, IsDrawnLine};
ghost use Rattle.draw_scene.specs.Lines.{Seen, drawing_lines, place_of};

/// Each thick line is a step of the reason, by the label that it has there, and each other line a
/// pair of the relation that it names.
pub fn lines_are_pairs_and_steps()
    ensures { (d : Drawing) (l : Seen) → Contains (drawing_lines d) l → IsDrawnLine l.is_thick d l }
{}

/// Where the box of an event stands, there stands that event.
pub fn places_are_of_events()
    ensures { (d : Drawing) (n : ℕ) (p : Position) → place_of d n ≡ Some p
        → IsBoxIn d n p.column p.row }
{}
