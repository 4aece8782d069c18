//! What a program declares.

use fx8::{ItemList, Text};
use mql_names::{Event, Sort};
use mql_syntax::{Place, Words};
use natives::ConstantValue;

/// A type, by what it is and by its name; the other names of `int` are `int`.
#[derive(Drop)]
pub struct TypeForm {
    pub sort: Sort,
    pub name: Text,
}

/// What a variable begins with, or what a parameter has by default.
#[derive(Clone, Copy, Debug)]
pub enum StartForm {
    /// Nothing is said.
    Zero,
    /// A value, at the node that it is or stands in, and the number that it is; none where it is no constant
    /// number.
    Value(Place, Option<ConstantValue>),
    /// So many arguments of a constructor.
    Arguments(usize),
}

/// A variable, a field of a structure, or a parameter.
#[derive(Drop)]
pub struct VariableForm {
    pub place: Place,
    pub words: Words,
    pub of: TypeForm,
    pub name: Text,
    /// The sizes of its dimensions; none where one is open.
    pub dimensions: ItemList<Option<u32>>,
    pub start: StartForm,
}

/// A parameter of a function; its default is what it starts with.
#[derive(Drop)]
pub struct ParamForm {
    pub reference: bool,
    pub variable: VariableForm,
}

/// A function as an item declares it: announced, or defined with its body.
#[derive(Drop)]
pub struct FunctionForm {
    pub place: Place,
    /// The place of the item among the items of the program, from 0 on.
    pub item: usize,
    /// How it is spelled with the types of its parameters, and whether it is only announced.
    pub key: Text,
    pub result: Option<TypeForm>,
    pub name: Text,
    pub params: ItemList<ParamForm>,
    pub defined: bool,
    /// The event function that it is.
    pub event: Option<Event>,
}

/// A variable of the program's own scope.
#[derive(Drop)]
pub struct GlobalForm {
    /// The place of the item among the items of the program, from 0 on.
    pub item: usize,
    pub variable: VariableForm,
}

/// A static variable of a function.
#[derive(Drop)]
pub struct StaticForm {
    /// The place of the function's item among the items of the program, from 0 on.
    pub item: usize,
    /// The function's key.
    pub function: Text,
    pub variable: VariableForm,
}

/// A structure with its fields in order, without those of its parent.
#[derive(Drop)]
pub struct StructureForm {
    pub place: Place,
    pub name: Text,
    pub parent: Option<TypeForm>,
    pub fields: ItemList<VariableForm>,
}
