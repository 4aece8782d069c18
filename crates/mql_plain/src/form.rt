//! The first node of a program that is not of the form of plain programs.
ghost use Rattle.std.specs.Prelude.{◌≡◌, IfOk};
ghost use Rattle.mql_names.specs.Faults.{told};
ghost use Rattle.mql_names.specs.Types.{type_place};
ghost use Rattle.mql_plain.specs.Plain as plain;

use fx8::{OutOfMemory, Text};
use mql_names::{Broken, break_if, type_place};
use mql_syntax::{
    Body, Class, ClassKind, Function, Member, Operation, Parent, Place, StatementKind, Syntax,
    TypeUse, UnaryOperator, Variable,
};
use mql_walk::{Judge, judged};
use std::alloc::Global;

fn is_pointer(of: &TypeUse) -> bool
    ensures { result ≡ plain.is_pointer of.now }
{
    match of {
        TypeUse::Named { pointer, .. } => *pointer,
    }
}

fn args_of(of: &TypeUse) -> &[TypeUse]
    ensures { result.now ≡ plain.args_of of.now }
{
    match of {
        TypeUse::Named { args, .. } => args.as_slice(),
    }
}

/// Whether a type is a pointer, or a template with its arguments.
fn is_derived(of: &TypeUse) -> bool
    ensures { result ≡ plain.is_derived of.now }
{
    is_pointer(of) || has_some(args_of(of))
}

fn has_some(args: &[TypeUse]) -> bool
    ensures { result ≡ plain.has_some args.now }
{
    match args {
        [] => false,
        [_first, ..] => true,
    }
}

fn is_pointer_operator(operator: UnaryOperator) -> bool
    ensures { result ≡ plain.is_pointer_operator operator }
{
    matches!(operator, UnaryOperator::Address | UnaryOperator::Object)
}

fn is_of_objects(what: &Operation) -> bool
    ensures { result ≡ plain.is_of_objects what.now }
{
    match what {
        Operation::Unary(operator) => is_pointer_operator(*operator),
        Operation::This
        | Operation::Scope { .. }
        | Operation::Generic(_)
        | Operation::New
        | Operation::DynamicCast => true,
        _ => false,
    }
}

fn is_delete(what: StatementKind) -> bool
    ensures { result ≡ plain.is_delete what }
{
    matches!(what, StatementKind::Delete)
}

fn is_struct(kind: ClassKind) -> bool
    ensures { result ≡ plain.is_struct kind }
{
    match kind {
        ClassKind::Struct => true,
        ClassKind::Class | ClassKind::Interface => false,
    }
}

fn is_pure(body: &Body) -> bool
    ensures { result ≡ plain.is_pure body.now }
{
    match body {
        Body::Pure => true,
        Body::Block(_) | Body::Declared => false,
    }
}

#[tactic(auto, unfolding(crate::specs::Plain::is_of_classes))]
fn is_of_classes(f: &Function) -> bool
    ensures { result ≡ plain.is_of_classes f.now }
{
    f.scope.is_some()
        || f.destructor
        || f.types.len() != 0
        || f.bases.len() != 0
        || f.overrides
        || f.words.is_virtual
        || is_pure(&f.body)
}

fn is_derived_parent(parent: &Option<Parent>) -> bool
    ensures { result ≡ plain.is_derived_parent parent.now }
{
    match parent {
        None => false,
        Some(one) => is_derived(&one.of),
    }
}

#[tactic(auto, unfolding(crate::specs::Plain::is_no_plain_structure))]
fn is_no_plain_structure(c: &Class) -> bool
    ensures { result ≡ plain.is_no_plain_structure c.now }
{
    !is_struct(c.kind) || c.types.len() != 0 || is_derived_parent(&c.parent)
}

fn member_off(m: &Member) -> Option<Broken>
    ensures { result ≡ told (plain.member_off m.now) }
{
    match m {
        Member::Variable(_, v) => break_if(v.words.is_static, 1, v.place),
        Member::Function(_, f) => break_if(true, 1, f.place),
    }
}

/// The form of plain programs: what is not of it.
#[derive(Clone, Copy, Debug)]
pub struct PlainForm;

impl Judge for PlainForm {
    ghost breaks = { λ _ t. plain.off t };

    fn on_type(&self, of: &TypeUse) -> Option<Broken> {
        break_if(is_derived(of), 1, type_place(of))
    }

    fn on_value(&self, _locals: &[Text], place: Place, what: &Operation) -> Option<Broken> {
        break_if(is_of_objects(what), 1, place)
    }

    fn on_statement(&self, place: Place, what: StatementKind) -> Option<Broken> {
        break_if(is_delete(what), 1, place)
    }

    fn on_variable(&self, _locals: &[Text], v: &Variable) -> Result<Option<Broken>, OutOfMemory> {
        Ok(break_if(v.scope.is_some(), 1, v.place))
    }

    fn on_function(&self, f: &Function) -> Option<Broken> {
        break_if(is_of_classes(f), 1, f.place)
    }

    fn on_structure(&self, c: &Class) -> Option<Broken> {
        break_if(is_no_plain_structure(c), 1, c.place)
    }

    fn on_member(&self, m: &Member) -> Option<Broken> {
        member_off(m)
    }
}

/// The first node of a program, in the order of tokens, that is not of the form of plain programs; none
/// exactly where the program is plain.
#[tactic(auto, unfolding(crate::specs::Plain::first_off))]
pub fn first_off(alloc: Global, syntax: &Syntax) -> Result<Option<Broken>, OutOfMemory>
    ensures { IfOk result (λ b. b ≡ plain.first_off syntax.now) }
{
    judged(alloc, &PlainForm, syntax)
}
