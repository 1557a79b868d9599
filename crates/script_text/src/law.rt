//! What the definition of scripts owes.

ghost use Rattle.script_text.specs.Grammar.{FaultsAreFirst, ScriptsAreFound, ScriptsAreOne};

/// A text is a script exactly where its lines are, said of all lines at once: each line is valid, and without those
/// that are skipped the first is the start line and the others are steps. The number of a refusal is that of the first
/// line with which the lines so far begin no script, however they go on.
pub fn scripts_are_their_lines()
    ensures found { ScriptsAreFound }
    ensures one { ScriptsAreOne }
    ensures first { FaultsAreFirst }
{}
