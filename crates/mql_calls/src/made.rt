//! What calls of the program's functions give.
ghost use Rattle.std.specs.Prelude.{◌≡◌, [], ◌++◌, IfOk};
ghost use Rattle.std.specs.Option.{option_copied};
ghost use Rattle.mql_calls.specs.Nodes.{all_kept};
ghost use Rattle.mql_calls.specs.Calls.{chosen, handed, handed_over, call_expression, given_in, call_info};

use crate::handed::{Handed, Value, lent, next_place};
use fx8::{ItemList, OutOfMemory, Stack};
use mql_arguments::chosen_in;
use mql_meaning::{Callee, Expression, VarType};
use mql_scope::ProgramFacts;
use mql_typed::{Info, a_value, converted, nothing};
use mql_types::{Argument, Base, Parameter, Signature, choose};
use std::alloc::Global;

/// The function of the program that a call of a name with arguments calls; none where no function takes them, or
/// functions fit equally.
pub fn chosen<'a, P: ProgramFacts>(
    program: &'a P,
    name: &[u16],
    given: &[Argument],
) -> Option<&'a Signature>
    ensures { option_copied result ≡ chosen (P.program program.now) name.now given.now }
{
    let functions = program.functions();
    chosen_in(functions, choose(name, given, functions))
}

fn handed(alloc: Global, p: Parameter, i: Info) -> Result<Value, OutOfMemory>
    ensures value { IfOk result (λ r. r.0 ≡ handed p i) }
    ensures kept { IfOk result (λ r. r.1 ≡ i.kept) }
{
    if p.reference {
        return Ok(lent(i));
    }
    converted(alloc, p.of.base, i)
}

/// The defaults of the parameters from a place on that have one, behind what is handed over.
fn with_defaults<P: ProgramFacts>(
    alloc: Global,
    program: &P,
    function: u32,
    first: u32,
    parameters: &[Parameter],
    before: ItemList<Expression>,
) -> Result<ItemList<Expression>, OutOfMemory>
    ensures { IfOk result (λ r. r ≡ before
        ++ handed_over ((P.program program.now).default function) first parameters.now []) }
{
    let mut parts = before;
    let mut k = first;
    let mut rest = parameters;
    while let [_, others @ ..] = rest {
        match program.default_value(alloc, function, k)? {
            None => {}
            Some(v) => {
                parts.push(Expression::Constant(v))?;
            }
        }
        k = next_place(k)?;
        rest = others;
    }
    Ok(parts)
}

/// What is handed over to a function's parameters, and the locals that the arguments take.
fn handed_over<P: ProgramFacts>(
    alloc: Global,
    program: &P,
    function: u32,
    parameters: &[Parameter],
    infos: ItemList<Info>,
) -> Result<Handed, OutOfMemory>
    ensures parts { IfOk result (λ r. r.parts
        ≡ handed_over ((P.program program.now).default function) 0 parameters.now infos) }
    ensures kept { IfOk result (λ r. r.kept ≡ all_kept infos) }
{
    let mut out = Handed::new(alloc);
    let mut k = 0;
    let mut left = Stack::of_list(infos);
    let mut rest = parameters;
    while let [p, others @ ..] = rest {
        match left.pop() {
            None => {
                let Handed { parts, kept } = out;
                let parts = with_defaults(alloc, program, function, k, rest, parts)?;
                return Ok(Handed { parts, kept });
            }
            Some(i) => {
                out = out.with(handed(alloc, *p, i)?)?;
            }
        }
        k = next_place(k)?;
        rest = others;
    }
    out.keeping(left)
}

fn given_in(gives: Option<Base>, kept: ItemList<VarType>, e: Expression) -> Info
    ensures { result ≡ given_in gives kept e }
{
    match gives {
        None => nothing(kept, e),
        Some(b) => a_value(b, kept, e),
    }
}

/// What a call of one of the program's functions gives.
pub fn call_info<P: ProgramFacts>(
    alloc: Global,
    program: &P,
    f: &Signature,
    infos: ItemList<Info>,
) -> Result<Info, OutOfMemory>
    ensures { IfOk result (λ r. r ≡ call_info (P.program program.now) f.now infos) }
{
    let Handed { parts, kept } = handed_over(
        alloc,
        program,
        f.number,
        f.parameters.as_slice(),
        infos,
    )?;
    let e = Expression::Call(Callee::Direct(f.number), f.result.is_some(), parts);
    Ok(given_in(f.result, kept, e))
}
