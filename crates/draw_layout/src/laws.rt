//! Laws of where things stand.

ghost use Rattle.std.specs.Prelude.{◌≡◌, ◌+◌, ◌≤◌, ◌<◌, ℕ, List, Contains, Bool, true, false, nat_lt};
ghost use Rattle.draw_layout.specs.declared.ends.End.{End};
ghost use Rattle.draw_layout.specs.declared.frame.Frame.{Frame};
ghost use Rattle.draw_layout.specs.Ends.{is_before, is_side, is_lane, lane_of};
ghost use Rattle.draw_layout.specs.Layout.{inset_of, box_height, left_of, top_of};

/// Two ends at one side of one box stand 20 apart at least, and so do their names.
pub fn ports_are_apart()
    ensures { (ends : List End) (size : ℕ) (e f : End) → Contains ends e → e.at ≡ f.at
        → e.side ≡ f.side → is_before e f ≡ true
        → inset_of ends size e + 20 ≤ inset_of ends size f }
{}

/// An end at the left or right side of a box stands on that side, 20 from the corners at least.
pub fn ends_are_on_borders()
    ensures { (ends : List End) (e : End) → Contains ends e → is_side false e.side ≡ true
        → (20 ≤ inset_of ends (box_height ends) e)
        × (inset_of ends (box_height ends) e + 20 ≤ box_height ends) }
{}

/// Two lines have level pieces of their own.
pub fn lanes_are_apart()
    ensures { (ends : List End) (above : Bool) (e f : End) → Contains ends e
        → is_lane above e ≡ true → nat_lt e.number f.number ≡ true
        → lane_of ends above e.number < lane_of ends above f.number }
{}

/// Boxes do not overlap: columns are 64 apart at least, and rows of events 30.
pub fn boxes_are_apart()
    ensures columns { (ends : List End) (f : Frame) (c : ℕ)
        → left_of ends f c + f.box_width + 64 ≤ left_of ends f (c + 1) }
    ensures rows { (f : Frame) (r : ℕ)
        → top_of f (r + 1) + f.box_height + 30 ≡ top_of f (r + 2) }
{}
