//! Laws about the definitions.
ghost use Rattle.std.specs.Prelude.{◌≡◌, ◌↔◌, ℕ, List, []};
ghost use Rattle.amq_model.specs.declared.script.Line.{Line};
ghost use Rattle.amq_model.specs.declared.script.Said.{Said};
ghost use Rattle.amq_model.specs.declared.script.Mode.{Mode};
ghost use Rattle.amq_model.specs.declared.script.ScriptCause.{ScriptCause};
ghost use Rattle.amq_model.specs.Script.{lines_of, producers_of, script_of};
ghost use Rattle.amq_script.specs.Grammar.{AreSaid, IsFirstWrong};

/// A script is read exactly where each of its lines is in the grammar behind the lines before it.
pub fn read_scripts()
    ensures { (mode : Mode) (bytes : List ℕ) (producers : List (List Line))
        → (script_of mode bytes ≡ Ok producers)
        ↔ ((saids : List Said) × AreSaid mode [] (lines_of bytes) saids × (producers_of mode saids ≡ producers)) }
{}

/// It is refused exactly at the first line that is not, for that line's cause.
pub fn refused_scripts()
    ensures { (mode : Mode) (bytes : List ℕ) (number : ℕ) (cause : ScriptCause)
        → (script_of mode bytes ≡ Err (number, cause)) ↔ IsFirstWrong mode bytes number cause }
{}
