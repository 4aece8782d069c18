//! Variables, functions, enumerations, classes and the items of a program.

use crate::kind::{Access, ClassKind, Place};
use crate::statement::Statement;
use crate::value::{TypeUse, Value};
use fx8::{ItemList, Text};

/// The words before a declaration.
#[derive(Clone, Copy, Debug, PartialEq, Eq)]
pub struct Words {
    /// `input`.
    pub is_input: bool,
    /// `sinput`.
    pub is_static_input: bool,
    /// `static`.
    pub is_static: bool,
    /// `const`.
    pub is_const: bool,
    /// `virtual`.
    pub is_virtual: bool,
}

/// A dimension of an array: open, or with its size.
#[derive(Drop)]
pub enum Dimension {
    Open,
    Size(Value),
}

/// What a variable begins with, or what a parameter has by default.
#[derive(Drop)]
pub enum Start {
    /// Nothing is said.
    Zero,
    /// A value.
    Value(Value),
    /// The arguments of a constructor.
    Arguments(ItemList<Value>),
}

/// A variable. Its place is that of the declaration that it is in.
#[derive(Drop)]
pub struct Variable {
    pub place: Place,
    pub words: Words,
    pub of: TypeUse,
    /// The class of which it is a static member.
    pub scope: Option<Text>,
    pub name: Text,
    pub dimensions: ItemList<Dimension>,
    pub start: Start,
}

/// A parameter of a function.
#[derive(Drop)]
pub struct Param {
    /// Whether it is a reference.
    pub reference: bool,
    pub variable: Variable,
}

/// A constructor of a parent or a member, with its arguments.
#[derive(Drop)]
pub struct Base {
    pub name: Text,
    pub arguments: ItemList<Value>,
}

/// What a function has behind its head: a block, nothing, or `= 0`.
#[derive(Drop)]
pub enum Body {
    Block(Statement),
    Declared,
    Pure,
}

/// A function; with parameters that are types it is a template.
#[derive(Drop)]
pub struct Function {
    pub place: Place,
    /// The number of nodes of the item or the member that it is, with it.
    pub nodes: u32,
    /// The parameters that are types.
    pub types: ItemList<Text>,
    pub words: Words,
    pub result: Option<TypeUse>,
    /// The class of which it is a method.
    pub scope: Option<Text>,
    pub destructor: bool,
    pub name: Text,
    pub params: ItemList<Param>,
    pub bases: ItemList<Base>,
    pub overrides: bool,
    pub body: Body,
}

/// A member of an enumeration, with its value if it has one.
#[derive(Drop)]
pub struct Enumerator {
    pub name: Text,
    pub value: Option<Value>,
}

/// An enumeration.
#[derive(Drop)]
pub struct Enumeration {
    pub place: Place,
    pub name: Text,
    pub values: ItemList<Enumerator>,
}

/// The parent of a class, and how the class takes its members.
#[derive(Drop)]
pub struct Parent {
    pub access: Option<Access>,
    pub of: TypeUse,
}

/// A variable or a function of a class, with where it is accessible: as the access word before it says; behind
/// none, those of a `class` are private, the others public.
#[derive(Drop)]
pub enum Member {
    Variable(Access, Variable),
    Function(Access, Function),
}

/// A class, a structure or an interface; with parameters that are types it is a template. One that is only
/// announced is not defined, and has no parent and no members. Its place is that of the node that its name
/// stands in, also where that node is a template's.
#[derive(Drop)]
pub struct Class {
    pub place: Place,
    /// The number of nodes of the item that it is, with it; of a template's, the template's.
    pub nodes: u32,
    /// The parameters that are types.
    pub types: ItemList<Text>,
    pub kind: ClassKind,
    pub name: Text,
    pub parent: Option<Parent>,
    pub defined: bool,
    pub members: ItemList<Member>,
}

/// An item of a program. Variables of one declaration are one item each.
#[derive(Drop)]
pub enum Item {
    /// `input group`, with its text.
    Group(Text),
    Variable(Variable),
    Function(Function),
    Class(Class),
    Enumeration(Enumeration),
}

/// The syntax of a program. Its place is that of the program's node.
#[derive(Drop)]
pub struct Syntax {
    pub place: Place,
    /// The number of nodes of the whole tree.
    pub nodes: u32,
    pub items: ItemList<Item>,
}
