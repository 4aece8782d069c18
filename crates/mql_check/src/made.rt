//! The typed program.
ghost use Rattle.std.specs.Prelude.{◌≡◌, [], ◌∷◌, ◌++◌, length, map, IfOk};
ghost use Rattle.std.specs.List.{flat_map};
ghost use Rattle.mql_names.specs.Events.{event_name};
ghost use Rattle.mql_program.specs.Programs.{variables_in};
ghost use Rattle.mql_check.specs.Made.{field_type, class_of, own_function, static_steps, static_type, known_type, number_of_name, event_function, entries, functions_with_own, checked};

use crate::bodies::Bodies;
use crate::globals::Beginning;
use crate::inputs::inputs_from;
use crate::lists::{counted, number_of};
use fx8::{ItemList, OutOfMemory, Stack, Text};
use mql_meaning::{Checked, Class, Entries, Function, Statement, VarType};
use mql_names::Event;
use mql_program::SourceFacts;
use mql_scope::{Field, Known, Layout, ProgramFacts};
use mql_spelling::is_spelled;
use mql_statements::{Static, evaluated};
use mql_syntax::Item;
use mql_typed::var_type;
use mql_types::Signature;
use std::alloc::Global;

fn field_types(alloc: Global, fields: &[Field]) -> Result<ItemList<VarType>, OutOfMemory>
    ensures { IfOk result (λ ts. ts ≡ map field_type fields.now) }
{
    let mut all = ItemList::new(alloc);
    let mut rest = fields;
    while let [field, others @ ..] = rest {
        let t = var_type(alloc, field.of)?;
        all.push(t)?;
        rest = others;
    }
    Ok(all)
}

fn class_of(alloc: Global, l: &Layout) -> Result<Class, OutOfMemory>
    ensures { IfOk result (λ c. c ≡ class_of l.now) }
{
    let name = Text::from_slice(alloc, l.name.as_slice())?;
    let fields = field_types(alloc, l.fields.as_slice())?;
    Ok(Class {
        name,
        parent: None,
        fields,
        methods: ItemList::new(alloc),
        destructor: None,
    })
}

fn classes_of(alloc: Global, layouts: &[Layout]) -> Result<ItemList<Class>, OutOfMemory>
    ensures { IfOk result (λ cs. cs ≡ map class_of layouts.now) }
{
    let mut all = ItemList::new(alloc);
    let mut rest = layouts;
    while let [l, others @ ..] = rest {
        let c = class_of(alloc, l)?;
        all.push(c)?;
        rest = others;
    }
    Ok(all)
}

/// A function of the program's own: the one for the beginning, or the one for the end.
fn own_function(alloc: Global, locals: ItemList<VarType>, steps: ItemList<Statement>) -> Function
    ensures { result ≡ own_function locals steps }
{
    Function {
        name: ItemList::new(alloc),
        class: None,
        makes: false,
        lent: ItemList::new(alloc),
        locals,
        result: None,
        body: steps,
    }
}

/// What static variables begin with, and their types.
fn statics_done(
    alloc: Global,
    statics: ItemList<Static>,
) -> Result<(ItemList<Statement>, ItemList<VarType>), OutOfMemory>
    ensures steps { IfOk result (λ r. r.0 ≡ flat_map static_steps statics) }
    ensures types { IfOk result (λ r. r.1 ≡ map static_type statics) }
{
    let mut steps = ItemList::new(alloc);
    let mut types = ItemList::new(alloc);
    let mut rest = Stack::of_list(statics);
    while let Some(one) = rest.pop() {
        let done = evaluated(alloc, one.line, one.steps)?;
        steps.append(done)?;
        types.push(one.of)?;
    }
    Ok((steps, types))
}

fn known_types(alloc: Global, known: &[Known]) -> Result<ItemList<VarType>, OutOfMemory>
    ensures { IfOk result (λ ts. ts ≡ map known_type known.now) }
{
    let mut all = ItemList::new(alloc);
    let mut rest = known;
    while let [k, others @ ..] = rest {
        let t = var_type(alloc, k.of)?;
        all.push(t)?;
        rest = others;
    }
    Ok(all)
}

/// The number of the first function of an event's name.
fn function_of(event: Event, functions: &[Signature]) -> Option<u32>
    ensures { result ≡ number_of_name (event_name event) functions.now }
{
    let mut rest = functions;
    while let [f, others @ ..] = rest {
        if is_spelled(f.name.as_slice(), event.name()) {
            return Some(f.number);
        }
        rest = others;
    }
    None
}

fn event_function<P: ProgramFacts>(program: &P, event: Event) -> Option<u32>
    ensures { result ≡ event_function (P.program program.now) event }
{
    function_of(event, program.functions())
}

/// The functions that the tester calls, where a program has this many of its own.
fn entries_of<P: ProgramFacts>(program: &P, count: u32) -> Result<Entries, OutOfMemory>
    ensures { IfOk result (λ e. e ≡ entries (P.program program.now) count) }
{
    let end = counted(count, 1)?;
    Ok(Entries {
        start: Some(count),
        init: event_function(program, Event::Init),
        tick: event_function(program, Event::Tick),
        trade: event_function(program, Event::Trade),
        tester: event_function(program, Event::Tester),
        deinit: event_function(program, Event::Deinit),
        stop: Some(end),
    })
}

/// The functions of a program, the one for the beginning, and the one for the end.
fn with_own(
    alloc: Global,
    mut functions: ItemList<Function>,
    locals: ItemList<VarType>,
    steps: ItemList<Statement>,
) -> Result<ItemList<Function>, OutOfMemory>
    ensures { IfOk result (λ fs. fs ≡
        functions ++ own_function locals steps ∷ own_function [] [] ∷ []) }
{
    functions.push(own_function(alloc, locals, steps))?;
    functions.push(own_function(alloc, ItemList::new(alloc), ItemList::new(alloc)))?;
    Ok(functions)
}

/// The functions of a program with its own, and the types of its static variables.
fn functions_made(
    alloc: Global,
    b: Beginning,
    fs: Bodies,
) -> Result<(ItemList<Function>, ItemList<VarType>), OutOfMemory>
    ensures functions { IfOk result (λ r. r.0 ≡ functions_with_own b fs) }
    ensures types { IfOk result (λ r. r.1 ≡ map static_type fs.statics) }
{
    let (more, types) = statics_done(alloc, fs.statics)?;
    let mut steps = b.steps;
    steps.append(more)?;
    let functions = with_own(alloc, fs.functions, b.kept, steps)?;
    Ok((functions, types))
}

/// The types of global and static variables.
fn globals_made<P: ProgramFacts>(
    alloc: Global,
    program: &P,
    statics: ItemList<VarType>,
) -> Result<ItemList<VarType>, OutOfMemory>
    ensures { IfOk result (λ ts. ts ≡ map known_type (P.program program.now).globals ++ statics) }
{
    let mut all = known_types(alloc, program.globals())?;
    all.append(statics)?;
    Ok(all)
}

/// The typed program.
pub(crate) fn checked<P: ProgramFacts, S: SourceFacts>(
    alloc: Global,
    source: &S,
    program: &P,
    items: &[Item],
    b: Beginning,
    fs: Bodies,
) -> Result<Checked, OutOfMemory>
    ensures { IfOk result (λ x. x ≡ checked (S.given source.now) (P.program program.now)
        (flat_map variables_in items.now) b fs) }
{
    let count = number_of(fs.functions.len())?;
    let (functions, statics) = functions_made(alloc, b, fs)?;
    let globals = globals_made(alloc, program, statics)?;
    let classes = classes_of(alloc, program.structures())?;
    let inputs = inputs_from(alloc, source, program, items)?;
    let entries = entries_of(program, count)?;
    Ok(Checked {
        classes,
        functions,
        globals,
        inputs,
        entries,
    })
}
