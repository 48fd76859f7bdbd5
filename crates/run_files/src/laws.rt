//! What follows from the grammars, as contracts of functions that do nothing.
ghost use Rattle.std.specs.Prelude.{ℕ, List, MatchResult};
ghost use Rattle.texts.specs.Lines.{lines_of};
ghost use Rattle.texts.specs.Understood.{AreSaidBy, IsFirstBadFrom};
ghost use Rattle.run_files.specs.Scripts.{script_line_by, script_of};
ghost use Rattle.run_files.specs.Trace.{trace_of};
ghost use Rattle.run_files.specs.Understood.{IsFirstBad, IsTraceBy};

/// A text is a trace exactly if each of its lines is in the grammar, and its commands are then
/// the ones of its lines, in their order; otherwise the line that is named is the first one that is
/// not.
pub fn trace_by_its_lines()
    ensures { (bytes : List ℕ)
        → MatchResult (trace_of bytes) (IsTraceBy (lines_of bytes)) (IsFirstBad (lines_of bytes)) }
{}

/// A text is a script, for any number of readers, exactly if each of its lines is in the grammar.
pub fn script_by_its_lines()
    ensures { (readers : ℕ) → (text : List ℕ) → MatchResult (script_of readers text)
        (AreSaidBy (script_line_by readers) (lines_of text))
        (IsFirstBadFrom (script_line_by readers) 1 (lines_of text)) }
{}
