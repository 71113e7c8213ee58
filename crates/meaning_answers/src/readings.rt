//! A law of tests that are read: what evaluating such a test from nothing gives is what it says.
//! Read in specs/: Readings, after `Outcomes` of `meaning_outcomes/specs`.

ghost use Rattle.meaning_answers.specs.Readings.{ReadingsAreMeant};

/// What evaluating the test of a text from nothing gives is what the test says under the model.
pub fn readings_are_meant()
    ensures { ReadingsAreMeant }
{}
