//! The law of valid code.
ghost use Rattle.stack_code.specs.declared.code.Code.{Code};
ghost use Rattle.stack_validity.specs.Rules.{Kinds};
ghost use Rattle.stack_validity.specs.Valid.{Typed, Valid};
ghost use Rattle.stack_validity.specs.Law.{NeverStuck};

/// Valid code is never stuck, and so is typed code: Start from the opening store of inputs that fit, and then
/// each event that the code has, with each argument, within each number of steps and whatever the world answers,
/// end with a value, with an error, without a step left, or stopped. The call does nothing.
pub fn never_stuck()
    ensures typed { (code : Code) (kinds : Kinds) → Typed code kinds → NeverStuck code }
    ensures valid { (code : Code) (kinds : Kinds) → Valid code kinds → NeverStuck code }
{}
