//! Examples of the definitions of failed runs.

ghost use Rattle.git_location.specs.Examples.RunRows.{ReadRow, UnwrittenRow};

/// The reader and the writer after failed runs.
fn law_runs()
    ensures unwritten { UnwrittenRow }
    ensures read { ReadRow }
{}
