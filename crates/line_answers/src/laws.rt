//! Laws of the definitions.

ghost use Rattle.std.specs.Prelude.{◌++◌, List, ℕ};
ghost use Rattle.command_answers.specs.declared.file.TextFile.{TextFile};
ghost use Rattle.command_answers.specs.declared.reading.NamedModel.{NamedModel};
ghost use Rattle.line_answers.specs.declared.report.Lines.{Lines};
ghost use Rattle.line_answers.specs.Reports.{AreLinesUnder};

/// The lines of two parts of the files, one behind the other, are lines of all the files.
pub fn parts_are_the_whole()
    ensures { (lines : Lines) (models : List NamedModel) (a b : List TextFile)
        (text more told others : List ℕ) → AreLinesUnder lines models a text told
        → AreLinesUnder lines models b more others
        → AreLinesUnder lines models (a ++ b) (text ++ more) (told ++ others) }
{}
