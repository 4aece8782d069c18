//! The law of code.
ghost use Rattle.mql_meaning.specs.declared.tree.Checked.{Checked};
ghost use Rattle.stack_code.specs.declared.code.Code.{Code};
ghost use Rattle.stack_follows.specs.Follows.{Follows};
ghost use Rattle.stack_follows.specs.Stands.{Stands};

/// Code that stands for a program gives exactly what the program means: at each event, with each argument,
/// within each number of steps, and from each world it has an outcome exactly where that is the program's.
/// The call does nothing.
pub fn code_follows()
    ensures { (p : Checked) (code : Code) → Stands p code → Follows p code }
{}
