//! Reading values.
ghost use Rattle.std.specs.Prelude.{◌≡◌, [], ◌∷◌, ◌++◌, Some, None, map, option_map, IfOk};
ghost use Rattle.mql_views.specs.Seen.{part_seen, seen};
ghost use Rattle.mql_syntax.specs.Lists.{each};
ghost use Rattle.mql_syntax.specs.Reads.{Reads, Shows};
ghost use Rattle.mql_syntax.specs.Seen.{shape_seen};
ghost use Rattle.mql_syntax.specs.Values as values;

use crate::kind::{BinaryOperator, Place, Step, UnaryOperator};
use crate::leaf::{inner, name, place_of, sign, token};
use crate::lists::without;
use crate::read_types::{generic_named, type_uses};
use crate::unread::Unread;
use crate::value::{Operation, Value};
use fx8::{ItemList, OutOfMemory, Text};
use mql_forms::Form;
use mql_grammar::Class;
use mql_spelling::{ReservedWord, Sign, reserved_word};
use mql_tree::{Span, Token, Tree};
use mql_views::{
    Bracket, Part, Typed, in_braces, pair, read_between, read_bracket, read_call, read_conditional,
    read_conversion, read_dynamic_cast, read_index, read_new,
};
use std::alloc::Global;

/// A value before its types and values are read: what it does, and what it does it with.
#[derive(Drop)]
pub(crate) struct Shape<'a> {
    what: Operation,
    types: ItemList<Typed<'a>>,
    parts: ItemList<Part<'a>>,
}

#[tactic(auto, unfolding(crate::specs::Values::binary_of))]
fn binary_of(sign: Sign) -> Result<BinaryOperator, Unread>
    ensures { Reads result (values.binary_of sign) }
{
    match sign {
        Sign::Star => Ok(BinaryOperator::Multiply),
        Sign::Slash => Ok(BinaryOperator::Divide),
        Sign::Percent => Ok(BinaryOperator::Remainder),
        Sign::Plus => Ok(BinaryOperator::Add),
        Sign::Minus => Ok(BinaryOperator::Subtract),
        Sign::ShiftLeft => Ok(BinaryOperator::ShiftLeft),
        Sign::ShiftRight => Ok(BinaryOperator::ShiftRight),
        Sign::Less => Ok(BinaryOperator::Less),
        Sign::LessOrEqual => Ok(BinaryOperator::LessOrEqual),
        Sign::Greater => Ok(BinaryOperator::Greater),
        Sign::GreaterOrEqual => Ok(BinaryOperator::GreaterOrEqual),
        Sign::Equal => Ok(BinaryOperator::Equal),
        Sign::NotEqual => Ok(BinaryOperator::NotEqual),
        Sign::Ampersand => Ok(BinaryOperator::BitAnd),
        Sign::Caret => Ok(BinaryOperator::BitXor),
        Sign::Bar => Ok(BinaryOperator::BitOr),
        Sign::And => Ok(BinaryOperator::And),
        Sign::Or => Ok(BinaryOperator::Or),
        _ => Err(Unread::Nothing),
    }
}

#[tactic(auto, unfolding(crate::specs::Values::assignment_of))]
fn assignment_of(sign: Sign) -> Result<Operation, Unread>
    ensures { Reads result (values.assignment_of sign) }
{
    match sign {
        Sign::Assign => Ok(Operation::Assign),
        Sign::PlusAssign => Ok(Operation::AssignWith(BinaryOperator::Add)),
        Sign::MinusAssign => Ok(Operation::AssignWith(BinaryOperator::Subtract)),
        Sign::StarAssign => Ok(Operation::AssignWith(BinaryOperator::Multiply)),
        Sign::SlashAssign => Ok(Operation::AssignWith(BinaryOperator::Divide)),
        Sign::PercentAssign => Ok(Operation::AssignWith(BinaryOperator::Remainder)),
        Sign::ShiftLeftAssign => Ok(Operation::AssignWith(BinaryOperator::ShiftLeft)),
        Sign::ShiftRightAssign => Ok(Operation::AssignWith(BinaryOperator::ShiftRight)),
        Sign::AmpersandAssign => Ok(Operation::AssignWith(BinaryOperator::BitAnd)),
        Sign::CaretAssign => Ok(Operation::AssignWith(BinaryOperator::BitXor)),
        Sign::BarAssign => Ok(Operation::AssignWith(BinaryOperator::BitOr)),
        _ => Err(Unread::Nothing),
    }
}

#[tactic(auto, unfolding(crate::specs::Values::unary_of))]
fn unary_of(sign: Sign) -> Result<UnaryOperator, Unread>
    ensures { Reads result (values.unary_of sign) }
{
    match sign {
        Sign::Not => Ok(UnaryOperator::Not),
        Sign::Tilde => Ok(UnaryOperator::Complement),
        Sign::Minus => Ok(UnaryOperator::Minus),
        Sign::Plus => Ok(UnaryOperator::Plus),
        Sign::Increment => Ok(UnaryOperator::Increment),
        Sign::Decrement => Ok(UnaryOperator::Decrement),
        Sign::Ampersand => Ok(UnaryOperator::Address),
        Sign::Star => Ok(UnaryOperator::Object),
        _ => Err(Unread::Nothing),
    }
}

#[tactic(auto, unfolding(crate::specs::Values::step_of))]
fn step_of(sign: Sign) -> Result<Step, Unread>
    ensures { Reads result (values.step_of sign) }
{
    match sign {
        Sign::Increment => Ok(Step::Increment),
        Sign::Decrement => Ok(Step::Decrement),
        _ => Err(Unread::Nothing),
    }
}

/// What a reserved word is as a value, and what another name is.
#[tactic(auto, unfolding(crate::specs::Values::word_value))]
fn word_value(alloc: Global, name: &[u16], word: Option<ReservedWord>) -> Result<Operation, Unread>
    ensures { Reads result (values.word_value name.now word) }
{
    match word {
        None => {
            let name = Text::from_slice(alloc, name)?;
            Ok(Operation::Name(name))
        }
        Some(ReservedWord::True) => Ok(Operation::Bool(true)),
        Some(ReservedWord::False) => Ok(Operation::Bool(false)),
        Some(ReservedWord::Null) => Ok(Operation::Null),
        Some(ReservedWord::This) => Ok(Operation::This),
        Some(_) => Err(Unread::Nothing),
    }
}

/// What a token is as a value.
#[tactic(auto, unfolding(crate::specs::Values::token_value))]
fn token_value(alloc: Global, token: &Token) -> Result<Operation, Unread>
    ensures { Reads result (values.token_value token.now) }
{
    match token {
        Token::Name(name) => word_value(alloc, name.as_slice(), reserved_word(name.as_slice())),
        Token::Int { value, kind } => Ok(Operation::Int {
            value: *value,
            kind: *kind,
        }),
        Token::Double(value) => Ok(Operation::Double(*value)),
        Token::Str(text) => {
            let text = Text::from_slice(alloc, text.as_slice())?;
            Ok(Operation::Text(text))
        }
        _ => Err(Unread::Nothing),
    }
}

/// A value that has no types.
fn plain<'a>(alloc: Global, what: Operation, parts: ItemList<Part<'a>>) -> Shape<'a>
    ensures { shape_seen result ≡ values.plain what (seen parts.entry) }
{
    Shape {
        what,
        types: ItemList::new(alloc),
        parts,
    }
}

/// A value of one and of two values.
fn of_one<'a>(alloc: Global, what: Operation, part: Part<'a>) -> Result<Shape<'a>, Unread>
    ensures { Shows shape_seen result (Some (values.plain what (part_seen part.entry ∷ []))) }
{
    let parts = ItemList::from_slice(alloc, &[part])?;
    Ok(plain(alloc, what, parts))
}

fn of_two<'a>(
    alloc: Global,
    what: Operation,
    left: Part<'a>,
    right: Part<'a>,
) -> Result<Shape<'a>, Unread>
    ensures { Shows shape_seen result
        (Some (values.plain what (part_seen left.entry ∷ part_seen right.entry ∷ []))) }
{
    let parts = ItemList::from_slice(alloc, &[left, right])?;
    Ok(plain(alloc, what, parts))
}

/// A value that has a type, behind which `*` may stand.
fn with_type<'a>(
    alloc: Global,
    what: Operation,
    name: Part<'a>,
    pointer: bool,
    parts: ItemList<Part<'a>>,
) -> Result<Shape<'a>, Unread>
    ensures { Shows shape_seen result
        (Some (values.with_type what (part_seen name.entry) pointer (seen parts.entry))) }
{
    let types = ItemList::from_slice(alloc, &[Typed { name, pointer }])?;
    Ok(Shape { what, types, parts })
}

/// The parts that stand with their commas.
pub fn items<'a>(
    first: ItemList<Part<'a>>,
    parts: &'a [Part<'a>],
) -> Result<ItemList<Part<'a>>, OutOfMemory>
    ensures { IfOk result (λ found. seen found ≡ seen first.entry ++ values.items (seen parts.now)) }
{
    without(first, &[Class::Comma], parts)
}

#[tactic(auto, unfolding(crate::specs::Values::bracket_shape))]
fn bracket_shape<'a>(alloc: Global, parts: &'a [Part<'a>]) -> Result<Shape<'a>, Unread>
    ensures { Shows shape_seen result (values.bracket_shape (seen parts.now)) }
{
    match read_bracket(parts) {
        None => Err(Unread::Nothing),
        Some(Bracket::Inner(value)) => of_one(alloc, Operation::Parentheses, value),
        Some(Bracket::Cast(name, pointer, value)) => {
            let parts = ItemList::from_slice(alloc, &[value])?;
            with_type(alloc, Operation::Cast, name, pointer, parts)
        }
    }
}

#[tactic(auto, unfolding(crate::specs::Values::conditional_shape))]
fn conditional_shape<'a>(alloc: Global, parts: &'a [Part<'a>]) -> Result<Shape<'a>, Unread>
    ensures { Shows shape_seen result (values.conditional_shape (seen parts.now)) }
{
    match read_conditional(parts) {
        None => Err(Unread::Nothing),
        Some(choice) => {
            let parts = ItemList::from_slice(alloc, &[choice.test, choice.chosen, choice.other])?;
            Ok(plain(alloc, Operation::Conditional, parts))
        }
    }
}

#[tactic(auto, unfolding(crate::specs::Values::call_shape))]
fn call_shape<'a>(alloc: Global, parts: &'a [Part<'a>]) -> Result<Shape<'a>, Unread>
    ensures { Shows shape_seen result (values.call_shape (seen parts.now)) }
{
    match read_call(parts) {
        None => Err(Unread::Nothing),
        Some(call) => {
            let callee = ItemList::from_slice(alloc, &[call.callee])?;
            let parts = items(callee, call.arguments)?;
            Ok(plain(alloc, Operation::Call, parts))
        }
    }
}

#[tactic(auto, unfolding(crate::specs::Values::new_shape))]
fn new_shape<'a>(alloc: Global, parts: &'a [Part<'a>]) -> Result<Shape<'a>, Unread>
    ensures { Shows shape_seen result (values.new_shape (seen parts.now)) }
{
    match read_new(parts) {
        None => Err(Unread::Nothing),
        Some(call) => {
            let parts = items(ItemList::new(alloc), call.arguments)?;
            with_type(alloc, Operation::New, call.callee, false, parts)
        }
    }
}

#[tactic(auto, unfolding(crate::specs::Values::index_shape))]
fn index_shape<'a>(alloc: Global, parts: &'a [Part<'a>]) -> Result<Shape<'a>, Unread>
    ensures { Shows shape_seen result (values.index_shape (seen parts.now)) }
{
    match read_index(parts) {
        None => Err(Unread::Nothing),
        Some((array, index)) => of_two(alloc, Operation::Index, array, index),
    }
}

#[tactic(auto, unfolding(crate::specs::Values::dynamic_cast_shape))]
fn dynamic_cast_shape<'a>(alloc: Global, parts: &'a [Part<'a>]) -> Result<Shape<'a>, Unread>
    ensures { Shows shape_seen result (values.dynamic_cast_shape (seen parts.now)) }
{
    match read_dynamic_cast(parts) {
        None => Err(Unread::Nothing),
        Some((name, value)) => {
            let parts = ItemList::from_slice(alloc, &[value])?;
            with_type(alloc, Operation::DynamicCast, name, true, parts)
        }
    }
}

#[tactic(auto, unfolding(crate::specs::Values::conversion_shape))]
fn conversion_shape<'a>(alloc: Global, parts: &'a [Part<'a>]) -> Result<Shape<'a>, Unread>
    ensures { Shows shape_seen result (values.conversion_shape (seen parts.now)) }
{
    match read_conversion(parts) {
        None => Err(Unread::Nothing),
        Some((name, value)) => {
            let parts = ItemList::from_slice(alloc, &[value])?;
            with_type(alloc, Operation::Conversion, name, false, parts)
        }
    }
}

#[tactic(auto, unfolding(crate::specs::Values::braces_shape))]
fn braces_shape<'a>(alloc: Global, parts: &'a [Part<'a>]) -> Result<Shape<'a>, Unread>
    ensures { Shows shape_seen result (values.braces_shape (seen parts.now)) }
{
    match in_braces(parts) {
        None => Err(Unread::Nothing),
        Some(inner) => {
            let parts = items(ItemList::new(alloc), inner)?;
            Ok(plain(alloc, Operation::Braces, parts))
        }
    }
}

/// By the sign before a value.
#[tactic(auto, unfolding(crate::specs::Values::unary_shape))]
fn unary_shape<'a>(
    alloc: Global,
    tokens: &[(Token, Span)],
    parts: &'a [Part<'a>],
) -> Result<Shape<'a>, Unread>
    ensures { Shows shape_seen result (values.unary_shape tokens.now (seen parts.now)) }
{
    match pair(parts) {
        None => Err(Unread::Nothing),
        Some((before, value)) => {
            let sign = sign(tokens, before)?;
            let operator = unary_of(sign)?;
            of_one(alloc, Operation::Unary(operator), value)
        }
    }
}

/// By the sign behind a value.
#[tactic(auto, unfolding(crate::specs::Values::postfix_shape))]
fn postfix_shape<'a>(
    alloc: Global,
    tokens: &[(Token, Span)],
    parts: &'a [Part<'a>],
) -> Result<Shape<'a>, Unread>
    ensures { Shows shape_seen result (values.postfix_shape tokens.now (seen parts.now)) }
{
    match pair(parts) {
        None => Err(Unread::Nothing),
        Some((value, behind)) => {
            let sign = sign(tokens, behind)?;
            let step = step_of(sign)?;
            of_one(alloc, Operation::Postfix(step), value)
        }
    }
}

/// By the sign between two values.
#[tactic(auto, unfolding(crate::specs::Values::binary_shape))]
fn binary_shape<'a>(
    alloc: Global,
    tokens: &[(Token, Span)],
    parts: &'a [Part<'a>],
) -> Result<Shape<'a>, Unread>
    ensures { Shows shape_seen result (values.binary_shape tokens.now (seen parts.now)) }
{
    match read_between(parts) {
        None => Err(Unread::Nothing),
        Some(found) => {
            let sign = sign(tokens, found.operator)?;
            let operator = binary_of(sign)?;
            of_two(alloc, Operation::Binary(operator), found.left, found.right)
        }
    }
}

#[tactic(auto, unfolding(crate::specs::Values::assignment_shape))]
fn assignment_shape<'a>(
    alloc: Global,
    tokens: &[(Token, Span)],
    parts: &'a [Part<'a>],
) -> Result<Shape<'a>, Unread>
    ensures { Shows shape_seen result (values.assignment_shape tokens.now (seen parts.now)) }
{
    match read_between(parts) {
        None => Err(Unread::Nothing),
        Some(found) => {
            let sign = sign(tokens, found.operator)?;
            let what = assignment_of(sign)?;
            of_two(alloc, what, found.left, found.right)
        }
    }
}

/// A member of a value.
#[tactic(auto, unfolding(crate::specs::Values::member_shape))]
fn member_shape<'a>(
    alloc: Global,
    tokens: &[(Token, Span)],
    parts: &'a [Part<'a>],
) -> Result<Shape<'a>, Unread>
    ensures { Shows shape_seen result (values.member_shape tokens.now (seen parts.now)) }
{
    match read_between(parts) {
        None => Err(Unread::Nothing),
        Some(found) => {
            let name = name(alloc, tokens, found.right)?;
            of_one(alloc, Operation::Member(name), found.left)
        }
    }
}

/// A member of a class.
#[tactic(auto, unfolding(crate::specs::Values::scope_shape))]
fn scope_shape<'a>(
    alloc: Global,
    tokens: &[(Token, Span)],
    parts: &'a [Part<'a>],
) -> Result<Shape<'a>, Unread>
    ensures { Shows shape_seen result (values.scope_shape tokens.now (seen parts.now)) }
{
    match read_between(parts) {
        None => Err(Unread::Nothing),
        Some(found) => {
            let class = name(alloc, tokens, found.left)?;
            let name = name(alloc, tokens, found.right)?;
            let what = Operation::Scope { class, name };
            Ok(plain(alloc, what, ItemList::new(alloc)))
        }
    }
}

/// A template with its arguments.
#[tactic(auto, unfolding(crate::specs::Values::generic_shape))]
fn generic_shape<'a>(
    alloc: Global,
    tokens: &[(Token, Span)],
    parts: &'a [Part<'a>],
) -> Result<Shape<'a>, Unread>
    ensures { Shows shape_seen result (values.generic_shape tokens.now (seen parts.now)) }
{
    let named = generic_named(alloc, tokens, parts)?;
    Ok(Shape {
        what: Operation::Generic(named.name),
        types: named.args,
        parts: ItemList::new(alloc),
    })
}

/// The parts of a node of a form.
#[tactic(auto, unfolding(crate::specs::Values::form_shape))]
fn form_shape<'a>(
    alloc: Global,
    tokens: &[(Token, Span)],
    form: Form,
    parts: &'a [Part<'a>],
) -> Result<Shape<'a>, Unread>
    ensures { Shows shape_seen result (values.form_shape tokens.now form (seen parts.now)) }
{
    match form {
        Form::Bracket => bracket_shape(alloc, parts),
        Form::Unary => unary_shape(alloc, tokens, parts),
        Form::Postfix => postfix_shape(alloc, tokens, parts),
        Form::Product => binary_shape(alloc, tokens, parts),
        Form::Sum => binary_shape(alloc, tokens, parts),
        Form::Shift => binary_shape(alloc, tokens, parts),
        Form::Relation => binary_shape(alloc, tokens, parts),
        Form::Equality => binary_shape(alloc, tokens, parts),
        Form::BitAnd => binary_shape(alloc, tokens, parts),
        Form::BitXor => binary_shape(alloc, tokens, parts),
        Form::BitOr => binary_shape(alloc, tokens, parts),
        Form::And => binary_shape(alloc, tokens, parts),
        Form::Or => binary_shape(alloc, tokens, parts),
        Form::Conditional => conditional_shape(alloc, parts),
        Form::Assignment => assignment_shape(alloc, tokens, parts),
        Form::Index => index_shape(alloc, parts),
        Form::MemberAccess => member_shape(alloc, tokens, parts),
        Form::Scope => scope_shape(alloc, tokens, parts),
        Form::Call => call_shape(alloc, parts),
        Form::GenericFunction => generic_shape(alloc, tokens, parts),
        Form::GenericType => generic_shape(alloc, tokens, parts),
        Form::New => new_shape(alloc, parts),
        Form::DynamicCast => dynamic_cast_shape(alloc, parts),
        Form::Conversion => conversion_shape(alloc, parts),
        Form::Braces => braces_shape(alloc, parts),
        _ => Err(Unread::Nothing),
    }
}

/// A token, or a node, of the parts that it has.
#[tactic(auto, unfolding(crate::specs::Values::shape))]
fn shaped<'a>(
    alloc: Global,
    tokens: &[(Token, Span)],
    part: Part<'a>,
    parts: &'a [Part<'a>],
) -> Result<Shape<'a>, Unread>
    ensures { Shows shape_seen result
        (values.shape tokens.now (part_seen part.entry) (seen parts.now)) }
{
    match part.tree {
        Tree::Leaf { .. } => match token(tokens, part) {
            None => Err(Unread::Nothing),
            Some(token) => {
                let what = token_value(alloc, token)?;
                Ok(plain(alloc, what, ItemList::new(alloc)))
            }
        },
        Tree::Node { form, parts: _ } => form_shape(alloc, tokens, *form, parts),
    }
}

/// Reads a value that stands at a node, where nodes go in one another at most as deep as the number says.
#[cycle(values)]
pub(crate) fn value(
    alloc: Global,
    tokens: &[(Token, Span)],
    classes: &[Class],
    depth: u32,
    inside: Place,
    part: Part,
) -> Result<Value, Unread>
    ensures { Reads result
        (values.value tokens.now classes.now depth inside (part_seen part.entry)) }
{
    let depth = match depth.checked_sub(1) {
        None => return Err(Unread::Nothing),
        Some(depth) => depth,
    };
    let place = place_of(inside, part);
    let parts = inner(alloc, classes, part)?;
    let shape = shaped(alloc, tokens, part, parts.as_slice())?;
    let types = type_uses(alloc, tokens, classes, depth, place, shape.types.as_slice())?;
    let parts = values_in(alloc, tokens, classes, depth, place, shape.parts.as_slice())?;
    Ok(Value::Node {
        place,
        what: shape.what,
        types,
        parts,
    })
}

/// Reads values that stand at a node.
#[cycle(values)]
pub fn values_in(
    alloc: Global,
    tokens: &[(Token, Span)],
    classes: &[Class],
    depth: u32,
    inside: Place,
    parts: &[Part],
) -> Result<ItemList<Value>, Unread>
    ensures { Reads result
        (each (values.value tokens.now classes.now depth inside) (seen parts.now)) }
{
    let mut found = ItemList::new(alloc);
    for part in parts {
        found.push(value(alloc, tokens, classes, depth, inside, *part)?)?;
    }
    Ok(found)
}

/// Reads a value: a part that stands at a place, where nodes go in one another at most as deep as the number
/// says. `None` exactly where the part is no value, or one that is too deep.
pub fn read_value(
    alloc: Global,
    tokens: &[(Token, Span)],
    classes: &[Class],
    depth: u32,
    inside: Place,
    part: Part,
) -> Result<Option<Value>, OutOfMemory>
    ensures { IfOk result (λ read.
        read ≡ values.value tokens.now classes.now depth inside (part_seen part.entry)) }
{
    match value(alloc, tokens, classes, depth, inside, part) {
        Ok(value) => Ok(Some(value)),
        Err(Unread::Nothing) => Ok(None),
        Err(Unread::OutOfMemory) => Err(OutOfMemory),
    }
}
