//! The laws of reading. These functions do nothing: each one's contract is its law.
ghost use Rattle.mql_syntax_total.specs.Laws.{ItemsAreFormed, PartsAreFormed, ProgramsAreRead};
ghost use Rattle.mql_syntax_total.specs.Laws.{StatementsAreRead, TypesAreRead, ValuesAreRead};

/// The parts of a program are formed, and so are the parts of each formed part.
pub fn parts_are_formed()
    ensures items { ItemsAreFormed }
    ensures parts { PartsAreFormed }
{}

/// Each formed part is read as what may stand there: a type, a value, a statement.
pub fn parts_are_read()
    ensures types { TypesAreRead }
    ensures values { ValuesAreRead }
    ensures statements { StatementsAreRead }
{}

/// Each tree that the parser answers is read as a program.
pub fn programs_are_read()
    ensures { ProgramsAreRead }
{}
