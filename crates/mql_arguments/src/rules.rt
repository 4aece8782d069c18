//! The rules of arguments of the program's functions, and the function that is chosen.
ghost use Rattle.std.specs.Prelude.{◌≡◌};
ghost use Rattle.std.specs.Option.{option_copied};
ghost use Rattle.mql_arguments.specs.Arguments.{function_at, chosen_in, is_nothing, is_equal, some_pair, not_placed, differs, lends_constant, whole_array, breaks};

use mql_types::{Argument, Choice, Parameter, Signature, same_type};

/// A rule of an argument with its parameter.
#[derive(Clone, Copy, Debug, PartialEq, Eq)]
pub enum ArgumentRule {
    /// A reference argument is no place.
    NotPlaced,
    /// A reference argument is a place of another type.
    Differs,
    /// A constant is lent for change.
    LendsConstant,
    /// An array is handed over by value.
    WholeArray,
}

fn not_placed(a: Argument, p: Parameter) -> bool
    ensures { result ≡ not_placed a p }
{
    p.reference && !a.place
}

fn differs(a: Argument, p: Parameter) -> bool
    ensures { result ≡ differs a p }
{
    p.reference && (a.place && !same_type(a.of, p.of))
}

fn lends_constant(a: Argument, p: Parameter) -> bool
    ensures { result ≡ lends_constant a p }
{
    p.reference && (a.place && (a.fixed && !p.constant))
}

fn whole_array(a: Argument, p: Parameter) -> bool
    ensures { result ≡ whole_array a p }
{
    !p.reference && a.of.dimensions.is_array()
}

impl ArgumentRule {
    ghost use Rattle.mql_arguments.specs.Arguments.{breaks};

    /// Whether an argument breaks it at its parameter.
    pub fn breaks(self, a: Argument, p: Parameter) -> bool
        ensures { result ≡ breaks self a p }
    {
        match self {
            ArgumentRule::NotPlaced => not_placed(a, p),
            ArgumentRule::Differs => differs(a, p),
            ArgumentRule::LendsConstant => lends_constant(a, p),
            ArgumentRule::WholeArray => whole_array(a, p),
        }
    }
}

/// Whether some argument breaks a rule at its parameter.
pub fn some_pair(rule: ArgumentRule, arguments: &[Argument], parameters: &[Parameter]) -> bool
    ensures { result ≡ some_pair (breaks rule) arguments.now parameters.now }
{
    let mut given = arguments;
    let mut rest = parameters;
    while let [a, left @ ..] = given {
        match rest {
            [] => {
                return false;
            }
            [p, others @ ..] => {
                if rule.breaks(*a, *p) {
                    return true;
                }
                rest = others;
            }
        }
        given = left;
    }
    false
}

fn function_at(number: u32, functions: &[Signature]) -> Option<&Signature>
    ensures { option_copied result ≡ function_at number functions.now }
{
    let mut rest = functions;
    while let [f, others @ ..] = rest {
        if f.number == number {
            return Some(f);
        }
        rest = others;
    }
    None
}

/// The function among these that is chosen.
pub fn chosen_in(functions: &[Signature], choice: Choice) -> Option<&Signature>
    ensures { option_copied result ≡ chosen_in functions.now choice }
{
    match choice {
        Choice::Function(number) => function_at(number, functions),
        Choice::Nothing | Choice::Equal => None,
    }
}

/// Whether no function takes the arguments.
pub fn is_nothing(choice: Choice) -> bool
    ensures { result ≡ is_nothing choice }
{
    match choice {
        Choice::Nothing => true,
        _ => false,
    }
}

/// Whether functions fit equally.
pub fn is_equal(choice: Choice) -> bool
    ensures { result ≡ is_equal choice }
{
    match choice {
        Choice::Equal => true,
        _ => false,
    }
}
