//! A law of the meaning.
ghost use Rattle.mql_meaning.specs.Talk.{MeansTalks};

/// What a program means over every list of answers is one talk with the world: what it asks depends on the
/// answers that it got so far alone. The call does nothing.
pub fn is_talk()
    ensures { MeansTalks }
{}
