//! A law of conversions.
ghost use Rattle.mql_mean.specs.declared.value.Value.{Value};
ghost use Rattle.mql_meaning.specs.declared.types.Sort.{Sort};
ghost use Rattle.mql_meaning.specs.Operators.{convert};
ghost use Rattle.native_conversions.specs.Conversions.{Gives, converted};

/// A value taken into a sort is what the conversion of a running program gives; it has none there exactly where
/// that ends. The call does nothing.
#[tactic(auto, using(crate::proofs::Laws::conversion_gives))]
pub fn converts()
    ensures { (t : Sort) (v : Value) → Gives (convert t v) (converted t v) }
{}
