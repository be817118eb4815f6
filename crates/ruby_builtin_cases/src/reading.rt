//! Calls as the first line of a case spells them.
//!
//! Words stand between spaces: `nil`, `true`, `false`, numbers, `"text`, `:symbol`, `Admin::User` for a module. `[` and
//! `]` stand around the members of an array, `{` and `}` around the keys and values of a hash, and `#Post` makes an
//! object of the hash before it. In texts, symbols and names `\s` is a space, `\n` a line's end, `\\` a backslash, and
//! `\xC3` a byte.

ghost use Rattle.std.specs.Prelude.{◌<◌, IfSome};

use lists::Copying;
use ruby_types::{CPath, Items, Pairs, Text, Value};
use std::alloc::{AllocError, Global};

/// A call that was read, with the turns that are left.
#[derive(Drop)]
pub struct ReadCall {
    pub on: Value,
    pub name: Vec<u8>,
    pub args: Items,
    pub left: u64,
}

/// The value of a digit to the base 16.
fn digit(byte: u8) -> Option<u8>
    ensures { IfSome result (λ value. value < 16) }
{
    match byte {
        b'0'..=b'9' => Some(byte - b'0'),
        b'A'..=b'F' => Some(byte - b'A' + 10),
        _ => None,
    }
}

/// The bytes of a text that is spelled with escapes.
fn unescaped(alloc: Global, spelled: &[u8]) -> Result<Option<Vec<u8>>, AllocError> {
    let mut bytes = Vec::new(alloc);
    let mut rest = spelled;
    'bytes: loop {
        match rest {
            [] => return Ok(Some(bytes)),
            [b'\\', b'x', high, low, others @ ..] => {
                match (digit(*high), digit(*low)) {
                    (Some(high), Some(low)) => bytes.push(high * 16 + low)?,
                    _ => return Ok(None),
                }
                rest = others;
            }
            [b'\\', b's', others @ ..] => {
                bytes.push(b' ')?;
                rest = others;
            }
            [b'\\', b'n', others @ ..] => {
                bytes.push(b'\n')?;
                rest = others;
            }
            [b'\\', b'\\', others @ ..] => {
                bytes.push(b'\\')?;
                rest = others;
            }
            [b'\\', ..] => return Ok(None),
            [byte, others @ ..] => {
                bytes.push(*byte)?;
                rest = others;
            }
        }
    }
}

fn text_of(alloc: Global, spelled: &[u8]) -> Result<Option<Text>, AllocError> {
    match unescaped(alloc, spelled)? {
        None => Ok(None),
        Some(bytes) => Ok(Some(Text::from_vec(alloc, bytes)?)),
    }
}

/// The names of `Admin::User`.
fn path_of(alloc: Global, spelled: &[u8]) -> Result<CPath, AllocError> {
    let mut path = CPath::new(alloc);
    for name in spelled.split(|byte| *byte == b':') {
        if !name.is_empty() {
            path.push(Text::from_bytes(alloc, name)?)?;
        }
    }
    Ok(path)
}

fn number_of(word: &[u8]) -> Option<i64> {
    match std::str::from_utf8(word) {
        Ok(digits) => digits.parse::<i64>().ok(),
        Err(_) => None,
    }
}

/// The value that one word spells.
fn value_of(alloc: Global, word: &[u8]) -> Result<Option<Value>, AllocError> {
    match word {
        b"nil" => Ok(Some(Value::Nil)),
        b"true" => Ok(Some(Value::True)),
        b"false" => Ok(Some(Value::False)),
        [b'"', text @ ..] => Ok(text_of(alloc, text)?.map(Value::Str)),
        [b':', name @ ..] => Ok(text_of(alloc, name)?.map(Value::Sym)),
        [b'A'..=b'Z', ..] => Ok(Some(Value::Module(path_of(alloc, word)?))),
        _ => Ok(number_of(word).map(Value::Int)),
    }
}

/// The pairs of values that stand side by side, where each key has a value.
fn pairs_of(alloc: Global, values: &[Value]) -> Result<Option<Pairs>, AllocError> {
    let mut pairs = Pairs::new(alloc);
    let mut rest = values;
    'pairs: loop {
        match rest {
            [] => return Ok(Some(pairs)),
            [key, value, others @ ..] => {
                pairs.push((key.copy()?, value.copy()?))?;
                rest = others;
            }
            _ => return Ok(None),
        }
    }
}

/// Words read so far: the values of the innermost list that is open, and those around it.
#[derive(Drop)]
struct Reading {
    alloc: Global,
    values: Vec<Value>,
    around: Vec<Vec<Value>>,
    name: Option<Vec<u8>>,
    left: u64,
}

impl Reading {
    fn open(&mut self) -> Result<(), AllocError> {
        let values = std::mem::replace(&mut self.values, Vec::new(self.alloc));
        self.around.push(values)?;
        Ok(())
    }

    /// The values of the innermost list, which ends here.
    fn close(&mut self) -> Option<Vec<Value>> {
        let values = self.around.pop()?;
        Some(std::mem::replace(&mut self.values, values))
    }

    fn close_array(&mut self) -> Result<bool, AllocError> {
        let Some(values) = self.close() else {
            return Ok(false);
        };
        let items = Items::from_vec(self.alloc, values)?;
        self.values.push(Value::Array(items))?;
        Ok(true)
    }

    fn close_hash(&mut self) -> Result<bool, AllocError> {
        let Some(values) = self.close() else {
            return Ok(false);
        };
        match pairs_of(self.alloc, values.as_slice())? {
            None => Ok(false),
            Some(pairs) => {
                self.values.push(Value::Hash(pairs))?;
                Ok(true)
            }
        }
    }

    /// The hash before it with a class.
    fn make_object(&mut self, class: &[u8]) -> Result<bool, AllocError> {
        match self.values.pop() {
            Some(Value::Hash(variables)) => {
                let class = path_of(self.alloc, class)?;
                self.values.push(Value::Object(class, variables))?;
                Ok(true)
            }
            _ => Ok(false),
        }
    }

    fn set_name(&mut self, spelled: &[u8]) -> Result<bool, AllocError> {
        self.name = unescaped(self.alloc, spelled)?;
        Ok(self.name.is_some())
    }

    fn set_left(&mut self, digits: &[u8]) -> bool {
        match number_of(digits) {
            Some(left) if left >= 0 => {
                self.left = left as u64;
                true
            }
            _ => false,
        }
    }

    /// Whether the word has a meaning here.
    fn take(&mut self, word: &[u8]) -> Result<bool, AllocError> {
        match word {
            [] => Ok(true),
            [b'['] | [b'{'] => {
                self.open()?;
                Ok(true)
            }
            [b']'] => self.close_array(),
            [b'}'] => self.close_hash(),
            [b'#', class @ ..] => self.make_object(class),
            [b'.', name @ ..] => self.set_name(name),
            [b'@', digits @ ..] => Ok(self.set_left(digits)),
            _ => match value_of(self.alloc, word)? {
                None => Ok(false),
                Some(value) => {
                    self.values.push(value)?;
                    Ok(true)
                }
            },
        }
    }
}

/// The call that a line spells.
pub fn call_of(alloc: Global, line: &[u8]) -> Result<Option<ReadCall>, AllocError> {
    let mut reading = Reading {
        alloc,
        values: Vec::new(alloc),
        around: Vec::new(alloc),
        name: None,
        left: 200_000,
    };
    for word in line.split(|byte| *byte == b' ') {
        if !reading.take(word)? {
            return Ok(None);
        }
    }
    let Reading {
        values,
        name,
        left,
        ..
    } = reading;
    match (values.as_slice(), name) {
        ([on, args @ ..], Some(name)) => Ok(Some(ReadCall {
            on: on.copy()?,
            name,
            args: Items::from_slice(alloc, args)?,
            left,
        })),
        _ => Ok(None),
    }
}
