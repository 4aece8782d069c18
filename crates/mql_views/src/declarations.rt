//! The named parts of declarations.
ghost use Rattle.std.specs.Prelude.{◌≡◌, option_map};
ghost use Rattle.mql_grammar.specs.Expressions.{names as name_classes};
ghost use Rattle.mql_views.specs.Declarations as views;
ghost use Rattle.mql_views.specs.Seen.{part_seen, seen, all, may_be_seen, maybe_seen, split_seen, type_seen, typed_seen, param_seen, body_seen, title_seen, function_seen, start_seen, variable_seen, variables_seen, enumerator_seen, enumeration_seen, parent_seen, parents_seen, class_seen};

use crate::cuts::{all_to, last, may, may_be, must, parted, piece, run, sign, split, until, up_to};
use crate::part::{Part, is};
use crate::values::STARS;
use mql_forms::Form;
use mql_grammar::Class;

/// A type, and whether `*` stands behind it.
#[derive(Clone, Copy)]
pub struct Typed<'a> {
    pub name: Part<'a>,
    pub pointer: bool,
}

/// A parameter of a function. The dimensions stand with their brackets.
#[derive(Clone, Copy)]
pub struct Param<'a> {
    pub constant: bool,
    pub typed: Typed<'a>,
    pub reference: bool,
    pub name: Part<'a>,
    pub dimensions: &'a [Part<'a>],
    pub preset: Option<Part<'a>>,
}

/// What a function has behind its head: a block, nothing, or `= 0`.
#[derive(Clone, Copy)]
pub enum Body<'a> {
    Block(Part<'a>),
    Declared,
    Pure,
}

/// What stands before the parentheses of a function.
#[derive(Clone, Copy)]
pub(crate) struct Title<'a> {
    words: &'a [Part<'a>],
    result: Option<Typed<'a>>,
    scope: Option<Part<'a>>,
    destructor: bool,
    name: Part<'a>,
}

/// A function. Parameters and bases stand with their commas.
#[derive(Clone, Copy)]
pub struct Function<'a> {
    pub words: &'a [Part<'a>],
    pub result: Option<Typed<'a>>,
    pub scope: Option<Part<'a>>,
    pub destructor: bool,
    pub name: Part<'a>,
    pub params: &'a [Part<'a>],
    pub bases: &'a [Part<'a>],
    pub overrides: bool,
    pub body: Body<'a>,
}

/// What a variable begins with: nothing, a value, or the arguments of a constructor with their commas.
#[derive(Clone, Copy)]
pub enum Start<'a> {
    Zero,
    Value(Part<'a>),
    Arguments(&'a [Part<'a>]),
}

/// A variable. The dimensions stand with their brackets.
#[derive(Clone, Copy)]
pub struct Variable<'a> {
    pub pointer: bool,
    pub scope: Option<Part<'a>>,
    pub name: Part<'a>,
    pub dimensions: &'a [Part<'a>],
    pub start: Start<'a>,
}

/// Variables of a type, with the words before it, and with their commas.
#[derive(Clone, Copy)]
pub struct Variables<'a> {
    pub words: &'a [Part<'a>],
    pub of: Part<'a>,
    pub items: &'a [Part<'a>],
}

/// A member of an enumeration.
#[derive(Clone, Copy)]
pub struct Enumerator<'a> {
    pub name: Part<'a>,
    pub value: Option<Part<'a>>,
}

/// An enumeration, with its members and their commas.
#[derive(Clone, Copy)]
pub struct Enumeration<'a> {
    pub name: Part<'a>,
    pub values: &'a [Part<'a>],
}

/// The parent of a class.
#[derive(Clone, Copy)]
pub struct Parent<'a> {
    pub access: Option<Part<'a>>,
    pub of: Part<'a>,
}

/// A class, a structure or an interface; without members it is only announced.
#[derive(Clone, Copy)]
pub struct ClassParts<'a> {
    pub kind: Part<'a>,
    pub name: Part<'a>,
    pub parent: Option<Parent<'a>>,
    pub members: Option<&'a [Part<'a>]>,
}

const FUNCTION_WORDS: [Class; 3] = [Class::Virtual, Class::Static, Class::Const];

pub(crate) const STORE_WORDS: [Class; 4] = [
    Class::Input,
    Class::StaticInput,
    Class::Static,
    Class::Const,
];

pub(crate) const LOCAL_WORDS: [Class; 2] = [Class::Static, Class::Const];

const NAMES: [Class; 2] = [Class::Name, Class::TypeName];

const TYPES: [Class; 3] = [Class::TypeName, Class::SimpleType, Class::Void];

const REFERENCES: [Class; 2] = [Class::Ampersand, Class::Reference];

const BEHIND_TYPE: [Class; 5] = [
    Class::Tilde,
    Class::Star,
    Class::PointerStar,
    Class::Name,
    Class::TypeName,
];

#[tactic(auto, unfolding(crate::specs::Declarations::is_typed))]
fn is_typed<'a>(parts: &'a [Part<'a>]) -> bool
    ensures { result ≡ views.is_typed (seen parts.now) }
{
    match parted(parts) {
        None => false,
        Some((of, rest)) => match parted(rest) {
            None => false,
            Some((next, _)) => is(&TYPES, &[Form::GenericType], of) && is(&BEHIND_TYPE, &[], next),
        },
    }
}

#[tactic(auto, unfolding(crate::specs::Declarations::typed_front))]
fn typed_front<'a>(parts: &'a [Part<'a>]) -> (Option<Typed<'a>>, &'a [Part<'a>])
    ensures { typed_seen result ≡ views.typed_front (seen parts.now) }
{
    match parted(parts) {
        None => (None, parts),
        Some((name, rest)) => {
            let (pointer, rest) = may(&STARS, rest);
            (Some(Typed { name, pointer }), rest)
        }
    }
}

#[tactic(auto, unfolding(crate::specs::Declarations::typed))]
fn read_typed<'a>(parts: &'a [Part<'a>]) -> (Option<Typed<'a>>, &'a [Part<'a>])
    ensures { typed_seen result ≡ views.typed (seen parts.now) }
{
    if is_typed(parts) {
        typed_front(parts)
    } else {
        (None, parts)
    }
}

#[tactic(auto, unfolding(crate::specs::Declarations::scoped))]
fn scoped<'a>(parts: &'a [Part<'a>]) -> (Option<Part<'a>>, &'a [Part<'a>])
    ensures { may_be_seen result ≡ views.scoped (seen parts.now) }
{
    match parted(parts) {
        None => (None, parts),
        Some((name, rest)) => match parted(rest) {
            None => (None, parts),
            Some((colons, behind)) => {
                if is(&[Class::DoubleColon], &[], colons) {
                    (Some(name), behind)
                } else {
                    (None, parts)
                }
            }
        },
    }
}

#[tactic(auto, unfolding(crate::specs::Declarations::preset_of))]
fn preset_of<'a>(parts: &'a [Part<'a>]) -> Option<Option<Part<'a>>>
    ensures { option_map maybe_seen result ≡ views.preset_of (seen parts.now) }
{
    match parted(parts) {
        None => Some(None),
        Some(_) => {
            let rest = sign(&[Class::Assign], parts)?;
            let value = last(rest)?;
            Some(Some(value))
        }
    }
}

#[tactic(auto, unfolding(crate::specs::Declarations::param_end))]
fn param_end<'a>(
    constant: bool,
    typed: Typed<'a>,
    reference: bool,
    name: Part<'a>,
    parts: &'a [Part<'a>],
) -> Option<Param<'a>>
    ensures { option_map param_seen result
        ≡ views.param_end constant (type_seen typed.entry) reference (part_seen name.entry) (seen parts.now) }
{
    let (dimensions, rest) = split(until(&[Class::Assign], &[], parts), parts);
    match preset_of(rest) {
        None => None,
        Some(preset) => Some(Param {
            constant,
            typed,
            reference,
            name,
            dimensions,
            preset,
        }),
    }
}

#[tactic(auto, unfolding(crate::specs::Declarations::param_typed))]
fn param_typed<'a>(constant: bool, of: Part<'a>, parts: &'a [Part<'a>]) -> Option<Param<'a>>
    ensures { option_map param_seen result
        ≡ views.param_typed constant (part_seen of.entry) (seen parts.now) }
{
    let (pointer, rest) = may(&STARS, parts);
    let (reference, rest) = may(&REFERENCES, rest);
    let (name, rest) = must(&NAMES, &[], rest)?;
    param_end(constant, Typed { name: of, pointer }, reference, name, rest)
}

/// A type among the arguments of a template, where the parts are one.
#[tactic(auto, unfolding(crate::specs::Declarations::type_argument))]
pub fn read_type_argument<'a>(parts: &'a [Part<'a>]) -> Option<Typed<'a>>
    ensures { option_map type_seen result ≡ views.type_argument (seen parts.now) }
{
    let (name, rest) = must(&TYPES, &[Form::GenericType], parts)?;
    let (pointer, rest) = may(&STARS, rest);
    match parted(rest) {
        None => Some(Typed { name, pointer }),
        Some(_) => None,
    }
}

/// The named parts of a parameter, where the parts are one.
#[tactic(auto, unfolding(crate::specs::Declarations::param))]
pub fn read_param<'a>(parts: &'a [Part<'a>]) -> Option<Param<'a>>
    ensures { option_map param_seen result ≡ views.param (seen parts.now) }
{
    let (constant, rest) = may(&[Class::Const], parts);
    let (of, rest) = must(&TYPES, &[Form::GenericType], rest)?;
    param_typed(constant, of, rest)
}

#[tactic(auto, unfolding(crate::specs::Declarations::is_param))]
fn is_param<'a>(parts: &'a [Part<'a>]) -> bool
    ensures { result ≡ views.is_param (seen parts.now) }
{
    read_param(parts).is_some()
}

/// Whether each piece between commas is a parameter, where there are at most as many as in the first list.
#[tactic(auto, unfolding(crate::specs::Declarations::are_params))]
fn are_params<'a>(most: &'a [Part<'a>], parts: &'a [Part<'a>]) -> bool
    ensures { result ≡ views.are_params (seen most.now) (seen parts.now) }
{
    match parted(most) {
        None => false,
        Some((_, fewer)) => {
            let (front, rest) = piece(parts);
            if is_param(front) {
                match parted(rest) {
                    None => true,
                    Some((_, others)) => are_params(fewer, others),
                }
            } else {
                false
            }
        }
    }
}

#[tactic(auto, unfolding(crate::specs::Declarations::params_stand))]
fn params_stand<'a>(parts: &'a [Part<'a>]) -> bool
    ensures { result ≡ views.params_stand (seen parts.now) }
{
    match parted(parts) {
        None => true,
        Some((first, rest)) => match parted(rest) {
            None => is(&[Class::Void], &[], first),
            Some(_) => are_params(parts, parts),
        },
    }
}

#[tactic(auto, unfolding(crate::specs::Declarations::bases_cut))]
fn bases_cut<'a>(parts: &'a [Part<'a>]) -> (&'a [Part<'a>], &'a [Part<'a>])
    ensures { split_seen result ≡ views.bases_cut (seen parts.now) }
{
    match parted(parts) {
        None => (parts, parts),
        Some((colon, rest)) => {
            if is(&[Class::Colon], &[], colon) {
                let end = until(
                    &[Class::Override, Class::Semicolon, Class::Assign],
                    &[Form::Block],
                    rest,
                );
                split(end, rest)
            } else {
                split(0, parts)
            }
        }
    }
}

#[tactic(auto, unfolding(crate::specs::Declarations::lone_body))]
fn lone_body<'a>(part: Part<'a>) -> Option<Body<'a>>
    ensures { option_map body_seen result ≡ views.lone_body (part_seen part.entry) }
{
    if is(&[], &[Form::Block], part) {
        Some(Body::Block(part))
    } else if is(&[Class::Semicolon], &[], part) {
        Some(Body::Declared)
    } else {
        None
    }
}

#[tactic(auto, unfolding(crate::specs::Declarations::body_of))]
fn body_of<'a>(parts: &'a [Part<'a>]) -> Option<Body<'a>>
    ensures { option_map body_seen result ≡ views.body_of (seen parts.now) }
{
    let (first, rest) = parted(parts)?;
    match parted(rest) {
        None => lone_body(first),
        Some(_) => {
            let rest = sign(&[Class::Assign], parts)?;
            let rest = sign(&[Class::Zero], rest)?;
            let rest = sign(&[Class::Semicolon], rest)?;
            match parted(rest) {
                None => Some(Body::Pure),
                Some(_) => None,
            }
        }
    }
}

#[tactic(auto, unfolding(crate::specs::Declarations::function_end))]
fn function_end<'a>(
    title: Title<'a>,
    params: &'a [Part<'a>],
    parts: &'a [Part<'a>],
) -> Option<Function<'a>>
    ensures { option_map function_seen result
        ≡ views.function_end (title_seen title.entry) (seen params.now) (seen parts.now) }
{
    let (bases, rest) = bases_cut(parts);
    let (overrides, rest) = may(&[Class::Override], rest);
    match body_of(rest) {
        None => None,
        Some(body) => Some(Function {
            words: title.words,
            result: title.result,
            scope: title.scope,
            destructor: title.destructor,
            name: title.name,
            params,
            bases,
            overrides,
            body,
        }),
    }
}

#[tactic(auto, unfolding(crate::specs::Declarations::function_params))]
fn function_params<'a>(title: Title<'a>, parts: &'a [Part<'a>]) -> Option<Function<'a>>
    ensures { option_map function_seen result
        ≡ views.function_params (title_seen title.entry) (seen parts.now) }
{
    let (params, rest) = up_to(Class::CloseParen, parts)?;
    if params_stand(params) {
        function_end(title, params, rest)
    } else {
        None
    }
}

#[tactic(auto, unfolding(crate::specs::Declarations::function_named))]
fn function_named<'a>(
    words: &'a [Part<'a>],
    of: Option<Typed<'a>>,
    scope: Option<Part<'a>>,
    destructor: bool,
    parts: &'a [Part<'a>],
) -> Option<Function<'a>>
    ensures { option_map function_seen result ≡ views.function_named (seen words.now)
        (option_map type_seen of.entry) (maybe_seen scope.entry) destructor (seen parts.now) }
{
    let (name, rest) = must(&NAMES, &[], parts)?;
    let rest = sign(&[Class::OpenParen], rest)?;
    let title = Title {
        words,
        result: of,
        scope,
        destructor,
        name,
    };
    function_params(title, rest)
}

#[tactic(auto, unfolding(crate::specs::Declarations::function_typed))]
fn function_typed<'a>(
    words: &'a [Part<'a>],
    of: Option<Typed<'a>>,
    parts: &'a [Part<'a>],
) -> Option<Function<'a>>
    ensures { option_map function_seen result
        ≡ views.function_typed (seen words.now) (option_map type_seen of.entry) (seen parts.now) }
{
    let (scope, rest) = scoped(parts);
    let (destructor, rest) = may(&[Class::Tilde], rest);
    function_named(words, of, scope, destructor, rest)
}

#[tactic(auto, unfolding(crate::specs::Declarations::function_worded))]
fn function_worded<'a>(words: &'a [Part<'a>], parts: &'a [Part<'a>]) -> Option<Function<'a>>
    ensures { option_map function_seen result ≡ views.function_worded (seen words.now) (seen parts.now) }
{
    let (of, rest) = read_typed(parts);
    function_typed(words, of, rest)
}

/// The named parts of a function, where the parts are one.
#[tactic(auto, unfolding(crate::specs::Declarations::function))]
pub fn read_function<'a>(parts: &'a [Part<'a>]) -> Option<Function<'a>>
    ensures { option_map function_seen result ≡ views.function (seen parts.now) }
{
    let (words, rest) = split(run(&FUNCTION_WORDS, parts), parts);
    function_worded(words, rest)
}

#[tactic(auto, unfolding(crate::specs::Declarations::start_of))]
fn start_of<'a>(parts: &'a [Part<'a>]) -> Option<Start<'a>>
    ensures { option_map start_seen result ≡ views.start_of (seen parts.now) }
{
    match parted(parts) {
        None => Some(Start::Zero),
        Some((first, rest)) => {
            if is(&[Class::Assign], &[], first) {
                match last(rest) {
                    None => None,
                    Some(value) => Some(Start::Value(value)),
                }
            } else {
                let rest = sign(&[Class::OpenParen], parts)?;
                let arguments = all_to(Class::CloseParen, rest)?;
                Some(Start::Arguments(arguments))
            }
        }
    }
}

#[tactic(auto, unfolding(crate::specs::Declarations::variable_end))]
fn variable_end<'a>(
    pointer: bool,
    scope: Option<Part<'a>>,
    name: Part<'a>,
    parts: &'a [Part<'a>],
) -> Option<Variable<'a>>
    ensures { option_map variable_seen result
        ≡ views.variable_end pointer (maybe_seen scope.entry) (part_seen name.entry) (seen parts.now) }
{
    let (dimensions, rest) = split(until(&[Class::Assign, Class::OpenParen], &[], parts), parts);
    match start_of(rest) {
        None => None,
        Some(start) => Some(Variable {
            pointer,
            scope,
            name,
            dimensions,
            start,
        }),
    }
}

/// The named parts of a variable behind its type, or behind a comma.
#[tactic(auto, unfolding(crate::specs::Declarations::variable))]
pub fn read_variable<'a>(parts: &'a [Part<'a>]) -> Option<Variable<'a>>
    ensures { option_map variable_seen result ≡ views.variable (seen parts.now) }
{
    let (pointer, rest) = may(&STARS, parts);
    let (scope, rest) = scoped(rest);
    match must(&NAMES, &[], rest) {
        None => None,
        Some((name, rest)) => variable_end(pointer, scope, name, rest),
    }
}

#[tactic(auto, unfolding(crate::specs::Declarations::variables_typed))]
fn variables_typed<'a>(words: &'a [Part<'a>], parts: &'a [Part<'a>]) -> Option<Variables<'a>>
    ensures { option_map variables_seen result ≡ views.variables_typed (seen words.now) (seen parts.now) }
{
    match must(&TYPES, &[Form::GenericType], parts) {
        None => None,
        Some((of, items)) => Some(Variables { words, of, items }),
    }
}

/// The variables of a type, with these words before it.
#[tactic(auto, unfolding(crate::specs::Declarations::variables))]
pub(crate) fn read_variables<'a>(store: &[Class], parts: &'a [Part<'a>]) -> Option<Variables<'a>>
    ensures { option_map variables_seen result ≡ views.variables store.now (seen parts.now) }
{
    let (words, rest) = split(run(store, parts), parts);
    variables_typed(words, rest)
}

/// The named parts of a member of an enumeration.
#[tactic(auto, unfolding(crate::specs::Declarations::enumerator))]
pub fn read_enumerator<'a>(parts: &'a [Part<'a>]) -> Option<Enumerator<'a>>
    ensures { option_map enumerator_seen result ≡ views.enumerator (seen parts.now) }
{
    let (name, rest) = must(&NAMES, &[], parts)?;
    match preset_of(rest) {
        None => None,
        Some(value) => Some(Enumerator { name, value }),
    }
}

/// What stands in braces with a `;` behind them.
#[tactic(auto, unfolding(crate::specs::Declarations::braced))]
fn braced<'a>(parts: &'a [Part<'a>]) -> Option<&'a [Part<'a>]>
    ensures { option_map all result ≡ views.braced (seen parts.now) }
{
    let rest = sign(&[Class::OpenBrace], parts)?;
    let (inner, rest) = up_to(Class::CloseBrace, rest)?;
    let rest = sign(&[Class::Semicolon], rest)?;
    match parted(rest) {
        None => Some(inner),
        Some(_) => None,
    }
}

/// The named parts of an enumeration.
#[tactic(auto, unfolding(crate::specs::Declarations::enumeration))]
pub fn read_enumeration<'a>(parts: &'a [Part<'a>]) -> Option<Enumeration<'a>>
    ensures { option_map enumeration_seen result ≡ views.enumeration (seen parts.now) }
{
    let rest = sign(&[Class::Enum], parts)?;
    let (name, rest) = must(&NAMES, &[], rest)?;
    let values = braced(rest)?;
    Some(Enumeration { name, values })
}

#[tactic(auto, unfolding(crate::specs::Declarations::parent_behind))]
fn parent_behind<'a>(
    access: Option<Part<'a>>,
    parts: &'a [Part<'a>],
) -> Option<(Option<Parent<'a>>, &'a [Part<'a>])>
    ensures { option_map parents_seen result
        ≡ views.parent_behind (maybe_seen access.entry, seen parts.now) }
{
    match must(&NAMES, &[Form::GenericType, Form::GenericFunction], parts) {
        None => None,
        Some((of, rest)) => Some((Some(Parent { access, of }), rest)),
    }
}

#[tactic(auto, unfolding(crate::specs::Declarations::parent_cut))]
fn parent_cut<'a>(parts: &'a [Part<'a>]) -> Option<(Option<Parent<'a>>, &'a [Part<'a>])>
    ensures { option_map parents_seen result ≡ views.parent_cut (seen parts.now) }
{
    match parted(parts) {
        None => Some((None, parts)),
        Some((colon, rest)) => {
            if is(&[Class::Colon], &[], colon) {
                let (access, rest) = may_be(&[Class::Access], rest);
                parent_behind(access, rest)
            } else {
                Some((None, parts))
            }
        }
    }
}

#[tactic(auto, unfolding(crate::specs::Declarations::class_end))]
fn class_end<'a>(kind: Part<'a>, name: Part<'a>, parts: &'a [Part<'a>]) -> Option<ClassParts<'a>>
    ensures { option_map class_seen result
        ≡ views.class_end (part_seen kind.entry) (part_seen name.entry) (seen parts.now) }
{
    match parent_cut(parts) {
        None => None,
        Some((parent, rest)) => match braced(rest) {
            None => None,
            Some(members) => Some(ClassParts {
                kind,
                name,
                parent,
                members: Some(members),
            }),
        },
    }
}

#[tactic(auto, unfolding(crate::specs::Declarations::class_behind))]
fn class_behind<'a>(kind: Part<'a>, name: Part<'a>, parts: &'a [Part<'a>]) -> Option<ClassParts<'a>>
    ensures { option_map class_seen result
        ≡ views.class_behind (part_seen kind.entry) (part_seen name.entry) (seen parts.now) }
{
    let (first, _) = parted(parts)?;
    if is(&[Class::Semicolon], &[], first) {
        Some(ClassParts {
            kind,
            name,
            parent: None,
            members: None,
        })
    } else {
        class_end(kind, name, parts)
    }
}

/// The named parts of a class, a structure or an interface.
#[tactic(auto, unfolding(crate::specs::Declarations::class_of))]
pub fn read_class<'a>(parts: &'a [Part<'a>]) -> Option<ClassParts<'a>>
    ensures { option_map class_seen result ≡ views.class_of (seen parts.now) }
{
    let (kind, rest) = must(&[Class::Kind], &[], parts)?;
    let (name, rest) = must(&NAMES, &[], rest)?;
    class_behind(kind, name, rest)
}
