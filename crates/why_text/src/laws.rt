//! Laws of the names of events.

ghost use Rattle.std.specs.Prelude.{◌≡◌, ◌<◌, ◌^◌, ℕ};
ghost use Rattle.why_text.specs.Events.{event_name};

/// Two events have two names, however many of the first are initial stores.
pub fn names_are_apart()
    ensures { (initial m n : ℕ) → m < 2 ^ 64 → n < 2 ^ 64
        → event_name initial m ≡ event_name initial n → m ≡ n }
{}
