//! The first call in a program that needs an account or a market.
ghost use Rattle.std.specs.Prelude.{◌≡◌, ℕ, List, IfOk};
ghost use Rattle.mql_names.specs.Faults.{told};
ghost use Rattle.mql_names.specs.Maps.{meaning};
ghost use Rattle.mql_names.specs.Meanings.{names_of};
ghost use Rattle.mql_walk.specs.Things.{things_of, told_by};
ghost use Rattle.mql_market_calls.specs.Calls as calls;

use fx8::{OutOfMemory, Text};
use mql_names::{Broken, Meanings, break_if, meaning_of, meanings_of};
use mql_syntax::{
    Class, Function, Item, Member, Operation, Place, StatementKind, Syntax, TypeUse, Variable,
};
use mql_walk::{Judge, is_local, judged};
use natives::{Native, Predefined, named, predefined_named};
use std::alloc::Global;

/// Whether a native function is one of an account or a market.
fn of_market(native: Option<Native>) -> bool
    ensures { result ≡ calls.of_market native }
{
    match native {
        None => false,
        Some(one) => Native::TesterStatistics.number() <= one.number(),
    }
}

/// Whether a predefined name reads a property of the symbol.
fn reads_symbol(name: Option<Predefined>) -> bool
    ensures { result ≡ calls.reads_symbol name }
{
    matches!(name, Some(Predefined::Point | Predefined::Digits))
}

/// Whether a name of the language needs an account or a market.
#[tactic(auto, unfolding(crate::specs::Calls::native_needs))]
fn native_needs(name: &[u16]) -> bool
    ensures { result ≡ calls.native_needs name.now }
{
    of_market(named(name)) || reads_symbol(predefined_named(name))
}

/// Whether a name does so where names mean this and these locals are in force.
#[tactic(auto, unfolding(crate::specs::Calls::needs_market))]
fn needs_market(names: &Meanings<'_>, locals: &[Text], name: &[u16]) -> bool
    ensures { result ≡ calls.needs_market (meaning names.now) locals.now name.now }
{
    native_needs(name) && meaning_of(names, name).is_none() && !is_local(locals, name)
}

/// Whether a value does so.
fn value_needs(names: &Meanings<'_>, locals: &[Text], what: &Operation) -> bool
    ensures { result ≡ calls.value_needs (meaning names.now) locals.now what.now }
{
    match what {
        Operation::Name(name) => needs_market(names, locals, name.as_slice()),
        _ => false,
    }
}

/// The rule on calls that need an account or a market, where names mean this.
#[derive(Drop)]
struct MarketCalls<'a, 'n> {
    names: &'a Meanings<'n>,
}

impl Judge for MarketCalls<'_, '_> {
    ghost breaks = { λ s t. calls.market_calls (meaning s.names.now) t };

    fn on_type(&self, _of: &TypeUse) -> Option<Broken> {
        None
    }

    fn on_value(&self, locals: &[Text], place: Place, what: &Operation) -> Option<Broken> {
        break_if(value_needs(self.names, locals, what), 2, place)
    }

    fn on_statement(&self, _place: Place, _what: StatementKind) -> Option<Broken> {
        None
    }

    fn on_variable(&self, _locals: &[Text], _v: &Variable) -> Result<Option<Broken>, OutOfMemory> {
        Ok(None)
    }

    fn on_function(&self, _f: &Function) -> Option<Broken> {
        None
    }

    fn on_structure(&self, _c: &Class) -> Option<Broken> {
        None
    }

    fn on_member(&self, _m: &Member) -> Option<Broken> {
        None
    }
}

/// What is told of such calls where names mean this.
fn calls_told<'a, 'n>(
    alloc: Global,
    names: &'a Meanings<'n>,
    syntax: &Syntax,
) -> Result<Option<Broken>, OutOfMemory>
    ensures { IfOk result (λ b. b ≡ told_by (calls.market_calls (meaning names.now)) (things_of syntax.now)) }
{
    let judge = MarketCalls { names };
    judged(alloc, &judge, syntax)
}

/// What the names of a program mean.
#[tactic(auto, using(crate::proofs::Known::names_known))]
fn names_in(alloc: Global, items: &[Item]) -> Result<Meanings<'_>, OutOfMemory>
    ensures { IfOk result (λ m. meaning m ≡ names_of items.now) }
{
    let names = meanings_of(alloc, items)?;
    Ok(names)
}

/// The first name in a program, in the order of tokens, that calls a native function of an account or a market, or
/// reads a property of the symbol; none exactly where the program does without.
///
/// Such functions are `TesterStatistics` and those of the chapters Account Information, Getting Market Information,
/// Timeseries and Indicators Access, Technical Indicators and Trade Functions of the MQL5 Reference; `_Point` and
/// `_Digits` read the symbol. A name that the program declares, or a local in force, hides the language's.
#[tactic(auto, unfolding(crate::specs::Calls::first_market_call))]
pub fn first_market_call(alloc: Global, syntax: &Syntax) -> Result<Option<Broken>, OutOfMemory>
    ensures { IfOk result (λ b. b ≡ calls.first_market_call syntax.now) }
{
    let names = names_in(alloc, syntax.items.as_slice())?;
    calls_told(alloc, &names, syntax)
}
