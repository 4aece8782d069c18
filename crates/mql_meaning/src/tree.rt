//! The typed tree of a program.
use crate::operator::Operator;
use crate::types::{Sort, VarType};
use fx8::{ItemList, Text};
use mql_mean::Value;
use natives::Native;

/// Which function a call calls.
#[derive(Clone, Copy)]
pub enum Callee {
    /// The function of this number, as typing chose it among overloads.
    Direct(u32),
    /// The method of this signature (a number for its name and parameter types) that the object's class has,
    /// through a place of this class.
    Virtual(u32, u32),
}

/// An expression. Its parts are gone through in their order: those of an assignment are the right side and
/// then the place.
#[derive(Drop)]
pub enum Expression {
    /// A literal, a constant, `NULL`, a default.
    Constant(Value),
    /// An operator on operands.
    Apply(Operator, ItemList<Expression>),
    /// A condition, and then one of two values: `?:`, `&&`, `||`.
    Choose(ItemList<Expression>),
    /// A call: the place of the object, if it is a method, and the arguments; whether it gives a value.
    Call(Callee, bool, ItemList<Expression>),
    /// A call of a native function. A part is a place where its parameter is by reference, an array or an
    /// object.
    Native(Native, ItemList<Expression>),
    /// `new`: an object of a class, its constructor, and the constructor's arguments.
    Make(u32, u32, ItemList<Expression>),
    /// `delete`: the object of a pointer ends. It gives no value.
    Delete(ItemList<Expression>),
    /// Expressions whose values are let go, and then one. (A structure that a call gives is kept so in a
    /// local of its own where a field of it is read.)
    After(ItemList<Expression>, ItemList<Expression>),
    /// `EnumToString`: the text of the first value that the number equals, else a text and the number.
    Named(ItemList<Text>, ItemList<Value>, Text, ItemList<Expression>),
}

/// What is done where a block is left.
#[derive(Clone, Copy)]
pub enum Cleanup {
    /// The object of a local ends.
    Local(u32),
    /// The object of a global ends.
    Global(u32),
    /// The object that is a field ends (at the end of a destructor).
    Field(u32),
    /// The parent's destructor runs (at the end of a destructor).
    Parent(u32),
}

/// A statement, with its line first.
#[derive(Drop)]
pub enum Statement {
    /// An expression whose value is let go.
    Evaluate(u32, Expression),
    /// Locals, from the first to before the second, begin: as zero, and those of object type with their
    /// objects.
    Reset(u32, u32, u32),
    /// With a value or none.
    Return(u32, ItemList<Expression>),
    Break(u32),
    Continue(u32),
    /// A condition, and what is done where it holds, and where it does not.
    If(u32, Expression, ItemList<Statement>, ItemList<Statement>),
    /// `while`, `for` and `do`: whether the first turn has no test, the test, the step, and the body.
    Loop(u32, bool, Expression, ItemList<Expression>, ItemList<Statement>),
    /// A number, the labels' values and the places in the body where they stand, the place of the `default`
    /// or the body's end, and the body.
    Switch(u32, Expression, ItemList<Value>, ItemList<u32>, u32, ItemList<Statement>),
    /// A block, and what is done wherever it is left.
    Block(u32, ItemList<Statement>, ItemList<Cleanup>),
}

/// A function.
#[derive(Drop)]
pub struct Function {
    pub name: Text,
    /// The class or structure on whose object it works; none where it works on none.
    pub class: Option<u32>,
    /// Whether it is a constructor or the destructor of its class.
    pub makes: bool,
    /// Which parameters are by reference. Parameters are the first locals.
    pub lent: ItemList<bool>,
    /// The types of its locals by number.
    pub locals: ItemList<VarType>,
    /// The type of its value; none where it gives none.
    pub result: Option<VarType>,
    pub body: ItemList<Statement>,
}

/// A method that a class has itself.
#[derive(Clone, Copy)]
pub struct Method {
    /// The number of its name and parameter types.
    pub signature: u32,
    /// Its function; none where it is pure.
    pub function: Option<u32>,
}

/// A class or a structure.
#[derive(Drop)]
pub struct Class {
    pub name: Text,
    pub parent: Option<u32>,
    /// The types of its fields, those of its parents first.
    pub fields: ItemList<VarType>,
    /// The methods that it has itself.
    pub methods: ItemList<Method>,
    /// Its destructor, written or not; none in a structure.
    pub destructor: Option<u32>,
}

/// A member of an enumeration.
#[derive(Drop)]
pub struct Member {
    pub name: Text,
    pub value: i32,
}

/// An input variable (MQL5 Reference, Language Basics, Variables, Input Variables).
#[derive(Drop)]
pub struct Input {
    /// The number of its global.
    pub global: u32,
    pub name: Text,
    /// Whether a study may range over it: `input`, and not `sinput`.
    pub optimisable: bool,
    /// The value that it has where none was set.
    pub default: Value,
    /// The members of its enumeration; none where its type is none.
    pub members: ItemList<Member>,
}

/// What calls a program: the tester's beginning and end, and the events that a program may handle.
#[derive(Clone, Copy)]
pub enum Entry {
    Start,
    Init,
    Tick,
    Trade,
    Tester,
    Deinit,
    Stop,
}

/// The functions of the entries.
#[derive(Clone, Copy)]
pub struct Entries {
    /// Gives the globals their first values, in the order of their declarations.
    pub start: Option<u32>,
    pub init: Option<u32>,
    pub tick: Option<u32>,
    pub trade: Option<u32>,
    pub tester: Option<u32>,
    pub deinit: Option<u32>,
    /// Ends the objects of the globals, the last first.
    pub stop: Option<u32>,
}

/// A checked program.
#[derive(Drop)]
pub struct Checked {
    pub classes: ItemList<Class>,
    pub functions: ItemList<Function>,
    /// The types of global and static variables by number.
    pub globals: ItemList<VarType>,
    pub inputs: ItemList<Input>,
    pub entries: Entries,
}
