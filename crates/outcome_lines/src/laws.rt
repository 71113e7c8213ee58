//! Laws of the definitions.

ghost use Rattle.std.specs.Prelude.{◌≡◌, ◌++◌, List};
ghost use Rattle.outcome_lines.specs.Records.{TestResult};
ghost use Rattle.outcome_lines.specs.Tab as tab;
ghost use Rattle.outcome_lines.specs.Json as json;

/// Parts that are made apart are the whole, one behind the other.
pub fn parts_are_the_whole()
    // A table, as fields.
    ensures tab_table { (a b : List TestResult)
        → tab.tab_table_lines (a ++ b) ≡ tab.tab_table_lines a ++ tab.tab_table_lines b }
    // A difference, as fields.
    ensures tab_difference { (a b : List TestResult)
        → tab.tab_difference_lines (a ++ b) ≡ tab.tab_difference_lines a ++ tab.tab_difference_lines
        b }
    // A table, as JSON.
    ensures json_table { (a b : List TestResult)
        → json.json_table_lines (a ++ b) ≡ json.json_table_lines a ++ json.json_table_lines b }
    // A difference, as JSON.
    ensures json_difference { (a b : List TestResult)
        → json.json_difference_lines (a ++ b) ≡ json.json_difference_lines a ++
        json.json_difference_lines b }
{}
