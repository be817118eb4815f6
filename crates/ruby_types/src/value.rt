use lists::{Copying, Listed, SharedList};
use std::alloc::AllocError;

/// Bytes, as a rule UTF-8.
pub type Text = lists::Text;

/// Texts that are built once and read: names of parameters, lines, segments of a path.
pub type TextList = Listed<Text>;

/// A constant path: its names from the outermost on, `Admin::User` being `Admin` and `User`. Empty for Object.
pub type CPath = SharedList<Text>;

/// The members of an Array, in order.
pub type Items = SharedList<Value>;

/// The pairs of a Hash or the variables of an Object, in order of their first assignment.
pub type Pairs = SharedList<(Value, Value)>;

/// A value of the Ruby profile. Values never change.
#[derive(Drop)]
pub enum Value {
    Nil,
    True,
    False,
    Int(i64),
    Str(Text),
    Sym(Text),
    Array(Items),
    Hash(Pairs),
    Module(CPath),
    Object(CPath, Pairs),
}

impl Copying for Value {
    fn copy(&self) -> Result<Value, AllocError> {
        match self {
            Value::Nil => Ok(Value::Nil),
            Value::True => Ok(Value::True),
            Value::False => Ok(Value::False),
            Value::Int(number) => Ok(Value::Int(*number)),
            Value::Str(text) => Ok(Value::Str(text.copy()?)),
            Value::Sym(name) => Ok(Value::Sym(name.copy()?)),
            Value::Array(items) => Ok(Value::Array(items.copy()?)),
            Value::Hash(pairs) => Ok(Value::Hash(pairs.copy()?)),
            Value::Module(path) => Ok(Value::Module(path.copy()?)),
            Value::Object(class, variables) => Ok(Value::Object(class.copy()?, variables.copy()?)),
        }
    }
}
