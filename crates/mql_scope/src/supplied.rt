//! Constants and predefined names of the language.
ghost use Rattle.std.specs.Prelude.{◌≡◌, pos, IfOk};
ghost use Rattle.mql_typed.specs.Typed.{int};
ghost use Rattle.mql_scope.specs.Places.{context_at};
ghost use Rattle.mql_scope.specs.Names.{of_constant_value, constant_info, tested_symbol, constant_expression, symbol_property, text_constant, predefined_typed, of_predefined, predefined_info, supplied_info};

use crate::facts::ProgramFacts;
use crate::here::Here;
use fx8::{IntKind, ItemList, OutOfMemory, Text};
use mql_mean::Value;
use mql_meaning::{Expression, Operator, Sort};
use mql_syntax::Place;
use mql_typed::{Info, a_value, on_one};
use mql_types::Base;
use natives::{
    Constant, ConstantValue, Native, Predefined, SimpleType, constant_named, predefined_named,
};
use std::alloc::Global;

/// What is told of a constant's value.
fn of_constant_value(alloc: Global, v: ConstantValue) -> Info
    ensures { result ≡ of_constant_value v }
{
    match v {
        ConstantValue::Integer(k, x) => a_value(
            Base::Simple(SimpleType::Integer(k)),
            ItemList::new(alloc),
            Expression::Constant(Value::Num(k, x)),
        ),
        ConstantValue::Double(x) => a_value(
            Base::Simple(SimpleType::Double),
            ItemList::new(alloc),
            Expression::Constant(Value::Dbl(x)),
        ),
    }
}

/// What is told of the constant of a name, if the language has one.
fn constant_info(alloc: Global, name: &[u16]) -> Option<Info>
    ensures { result ≡ constant_info name.now }
{
    match constant_named(name) {
        None => None,
        Some(k) => Some(of_constant_value(alloc, k.value())),
    }
}

/// The empty name, which means the symbol of the chart.
fn tested_symbol(alloc: Global) -> Expression
    ensures { result ≡ tested_symbol }
{
    Expression::Constant(Value::Str(ItemList::new(alloc)))
}

fn constant_expression(alloc: Global, k: Constant) -> Expression
    ensures { result ≡ constant_expression k }
{
    of_constant_value(alloc, k.value()).typed
}

fn text_constant(alloc: Global, text: &[u16]) -> Result<Expression, OutOfMemory>
    ensures { IfOk result (λ e. e ≡ text_constant text.now) }
{
    Ok(Expression::Constant(Value::Str(Text::from_slice(alloc, text)?)))
}

/// A property of the symbol of the chart.
fn symbol_property(
    alloc: Global,
    native: Native,
    property: Constant,
) -> Result<Expression, OutOfMemory>
    ensures { IfOk result (λ e. e ≡ symbol_property native property) }
{
    let mut parts = ItemList::new(alloc);
    parts.push(tested_symbol(alloc))?;
    parts.push(constant_expression(alloc, property))?;
    Ok(Expression::Native(native, parts))
}

fn line_constant(line: u32) -> Expression
    ensures { result ≡ int (pos line) }
{
    Expression::Constant(Value::Num(IntKind::Int, line as i128))
}

/// What a predefined name is where it stands.
pub fn predefined_typed<P: ProgramFacts>(
    alloc: Global,
    here: &Here<'_, P>,
    place: Place,
    predefined: Predefined,
) -> Result<Expression, OutOfMemory>
    ensures { IfOk result (λ e. e ≡ predefined_typed (context_at P.program here.now) place predefined) }
{
    match predefined {
        Predefined::File => text_constant(alloc, here.program.file(place)),
        Predefined::Line => Ok(line_constant(here.program.line(place))),
        Predefined::Function => text_constant(alloc, here.function),
        Predefined::Symbol => Ok(Expression::Native(Native::Symbol, ItemList::new(alloc))),
        Predefined::Period => Ok(Expression::Native(Native::Period, ItemList::new(alloc))),
        Predefined::Point => symbol_property(
            alloc,
            Native::SymbolInfoDouble,
            Constant::SymbolPoint,
        ),
        Predefined::Digits => {
            let digits = symbol_property(alloc, Native::SymbolInfoInteger, Constant::SymbolDigits)?;
            on_one(alloc, Operator::Convert(Sort::Number(IntKind::Int)), digits)
        }
        Predefined::Lasterror => Ok(Expression::Native(Native::GetLastError, ItemList::new(alloc))),
    }
}

fn of_predefined<P: ProgramFacts>(
    alloc: Global,
    here: &Here<'_, P>,
    place: Place,
    predefined: Predefined,
) -> Result<Info, OutOfMemory>
    ensures { IfOk result (λ i. i ≡ of_predefined (context_at P.program here.now) place predefined) }
{
    let e = predefined_typed(alloc, here, place, predefined)?;
    Ok(a_value(Base::Simple(predefined.kind()), ItemList::new(alloc), e))
}

fn predefined_info<P: ProgramFacts>(
    alloc: Global,
    here: &Here<'_, P>,
    place: Place,
    name: &[u16],
) -> Result<Option<Info>, OutOfMemory>
    ensures { IfOk result (λ i. i ≡ predefined_info (context_at P.program here.now) place name.now) }
{
    match predefined_named(name) {
        None => Ok(None),
        Some(predefined) => Ok(Some(of_predefined(alloc, here, place, predefined)?)),
    }
}

/// What the language supplies of a name that the program does not declare.
pub fn supplied_info<P: ProgramFacts>(
    alloc: Global,
    here: &Here<'_, P>,
    place: Place,
    name: &[u16],
) -> Result<Option<Info>, OutOfMemory>
    ensures { IfOk result (λ i. i ≡ supplied_info (context_at P.program here.now) place name.now) }
{
    if here.program.is_declared(name) {
        return Ok(None);
    }
    match constant_info(alloc, name) {
        Some(i) => Ok(Some(i)),
        None => predefined_info(alloc, here, place, name),
    }
}
