//! The code of a program.
use fx8::{ItemList, Text};
use mql_mean::Value;
use mql_meaning::{Class, Entries, Input, Operator, VarType};
use natives::Native;

/// An instruction that works on the operands and the store alone, and goes on to the next one.
#[derive(Clone, Copy)]
pub enum Effect {
    /// Pushes the constant of this number.
    Constant(u32),
    /// Takes an operator's operands and pushes what it gives.
    Apply(Operator),
    /// Takes a value and a place, which gets the value.
    Write,
    /// Takes two places; the second gets the value of the first.
    Copy,
    /// Takes an operand.
    Drop,
    /// Pushes the topmost operand once more.
    Twice,
    /// Puts a line in force.
    Line(u32),
    /// Locals, from the first to before the second, begin anew.
    Reset(u32, u32),
}

/// An instruction.
#[derive(Clone, Copy)]
pub enum Instruction {
    /// One that works on the operands and the store alone.
    Plain(Effect),
    /// Goes on at a label.
    Jump(u32),
    /// Takes a condition, and goes on at a label where it does not hold.
    Unless(u32),
    /// Spends a step.
    Step,
    /// Takes the arguments of a function of the program and calls it.
    Call(u32),
    /// Takes so many arguments, calls a native function and pushes its value, if it gives one.
    Native(Native, u32),
    /// Takes the value of the function, if it gives one, and goes back to the caller.
    Return,
}

/// The type of an operand.
#[derive(Drop)]
pub struct OperandType {
    /// What the value is, or what stands at the place.
    pub of: VarType,
    /// Whether the operand is a place.
    pub place: bool,
}

/// A label of a function.
#[derive(Drop)]
pub struct Label {
    /// The number of the instruction before which it stands.
    pub place: u32,
    /// The operands with which the function comes there, the topmost last.
    pub operands: ItemList<OperandType>,
}

/// The code of a function.
#[derive(Drop)]
pub struct FunctionCode {
    pub name: Text,
    /// The class or structure on whose object it works; none where it works on none.
    pub class: Option<u32>,
    /// Whether it is a constructor or the destructor of its class.
    pub makes: bool,
    /// Which parameters are by reference. Parameters are the first locals.
    pub lent: ItemList<bool>,
    /// The types of its locals by number.
    pub locals: ItemList<VarType>,
    /// The type of its value; none where it gives none.
    pub result: Option<VarType>,
    pub labels: ItemList<Label>,
    pub instructions: ItemList<Instruction>,
}

/// The code of a program.
#[derive(Drop)]
pub struct Code {
    pub constants: ItemList<Value>,
    pub classes: ItemList<Class>,
    /// The types of global and static variables by number.
    pub globals: ItemList<VarType>,
    pub inputs: ItemList<Input>,
    pub functions: ItemList<FunctionCode>,
    pub entries: Entries,
}
