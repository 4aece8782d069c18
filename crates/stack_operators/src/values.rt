//! Operators on values (MQL5 Reference, Language Basics, Operations and Expressions).
ghost use Rattle.std.specs.Prelude.{◌≡◌, pos};
ghost use Rattle.mql_meaning.specs.declared.operator.UnaryOperator.TheVariants as unary;
ghost use Rattle.mql_meaning.specs.declared.types.Sort.TheVariants as sorts;
ghost use Rattle.mql_meaning.specs.Operators as operators;
ghost use Rattle.store_cells.specs.Changes.{Gives};
ghost use Rattle.mql_meaning.specs.declared.store.Store as stores;

use crate::comparisons::{compare, truth};
use crate::doubles::on_doubles;
use crate::numbers::on_numbers;
use crate::parts::{double_in, number_of, serial_of, string_in};
use crate::strings::on_strings;
use fx8::{Fix8, IntKind, IntOperator};
use mql_mean::Value;
use mql_meaning::{Sort, Store, UnaryOperator};
use store_cells::{End, Fault};

fn both_numbers(
    operator: IntOperator,
    kind: IntKind,
    x: &Value,
    y: &Value,
    store: &Store,
) -> Result<Value, Fault>
    ensures { Gives (operators.binary operator (sorts.Number kind) x.now y.now) result store.now }
{
    let Some(x) = number_of(x) else {
        return Err(Fault::End(End::Stuck));
    };
    let Some(y) = number_of(y) else {
        return Err(Fault::End(End::Stuck));
    };
    on_numbers(operator, kind, x, y, store)
}

fn both_doubles(operator: IntOperator, x: &Value, y: &Value, store: &Store) -> Result<Value, Fault>
    ensures { Gives (operators.binary operator sorts.Double x.now y.now) result store.now }
{
    let Some(x) = double_in(x) else {
        return Err(Fault::End(End::Stuck));
    };
    let Some(y) = double_in(y) else {
        return Err(Fault::End(End::Stuck));
    };
    on_doubles(operator, x, y, store)
}

fn both_strings(operator: IntOperator, x: Value, y: Value, store: &Store) -> Result<Value, Fault>
    ensures { Gives (operators.binary operator sorts.String x y) result store.now }
{
    let Some(x) = string_in(x) else {
        return Err(Fault::End(End::Stuck));
    };
    let Some(y) = string_in(y) else {
        return Err(Fault::End(End::Stuck));
    };
    on_strings(operator, x, y, store)
}

/// A serial as a number.
fn number(serial: u64) -> i128
    ensures { result ≡ pos serial }
{
    serial as i128
}

fn both_pointers(operator: IntOperator, x: &Value, y: &Value) -> Result<Value, Fault>
    ensures { (store : stores.Store) →
        Gives (operators.binary operator sorts.Pointer x.now y.now) result store }
{
    let Some(x) = serial_of(x) else {
        return Err(Fault::End(End::Stuck));
    };
    let Some(y) = serial_of(y) else {
        return Err(Fault::End(End::Stuck));
    };
    compare(operator, number(x), number(y))
}

/// An operator on two values of a sort; a fault of arithmetic and a string that is too long are errors at the
/// line in force.
pub fn binary(
    operator: IntOperator,
    sort: Sort,
    x: Value,
    y: Value,
    store: &Store,
) -> Result<Value, Fault>
    ensures { Gives (operators.binary operator sort x y) result store.now }
{
    match sort {
        Sort::Number(kind) => both_numbers(operator, kind, &x, &y, store),
        Sort::Double => both_doubles(operator, &x, &y, store),
        Sort::String => both_strings(operator, x, y, store),
        Sort::Pointer => both_pointers(operator, &x, &y),
    }
}

/// The negative.
fn negative(sort: Sort, x: &Value, store: &Store) -> Result<Value, Fault>
    ensures { Gives (operators.unary_of unary.Minus sort x.now) result store.now }
{
    match sort {
        Sort::Number(kind) => match number_of(x) {
            Some(x) => on_numbers(IntOperator::Subtract, kind, 0, x, store),
            None => Err(Fault::End(End::Stuck)),
        },
        Sort::Double => match double_in(x) {
            Some(x) => on_doubles(IntOperator::Subtract, Fix8::of_units(0), x, store),
            None => Err(Fault::End(End::Stuck)),
        },
        Sort::String | Sort::Pointer => Err(Fault::End(End::Stuck)),
    }
}

/// The complement of `x`: what is left of -1 without it.
fn complement(sort: Sort, x: &Value, store: &Store) -> Result<Value, Fault>
    ensures { Gives (operators.unary_of unary.Complement sort x.now) result store.now }
{
    match sort {
        Sort::Number(kind) => match number_of(x) {
            Some(x) => on_numbers(IntOperator::Subtract, kind, -1, x, store),
            None => Err(Fault::End(End::Stuck)),
        },
        Sort::Double | Sort::String | Sort::Pointer => Err(Fault::End(End::Stuck)),
    }
}

/// Whether a number is 0.
fn denied(sort: Sort, x: &Value) -> Result<Value, Fault>
    ensures { (store : stores.Store) → Gives (operators.unary_of unary.Not sort x.now) result store }
{
    match sort {
        Sort::Number(_) => match number_of(x) {
            Some(x) => Ok(truth(x == 0)),
            None => Err(Fault::End(End::Stuck)),
        },
        Sort::Double | Sort::String | Sort::Pointer => Err(Fault::End(End::Stuck)),
    }
}

/// An operator on a value of a sort; a fault of arithmetic is an error at the line in force.
pub fn unary_of(
    operator: UnaryOperator,
    sort: Sort,
    x: &Value,
    store: &Store,
) -> Result<Value, Fault>
    ensures { Gives (operators.unary_of operator sort x.now) result store.now }
{
    match operator {
        UnaryOperator::Minus => negative(sort, x, store),
        UnaryOperator::Complement => complement(sort, x, store),
        UnaryOperator::Not => denied(sort, x),
    }
}
