ghost use Rattle.std.specs.Prelude.{◌≡◌, [], ◌++◌, ◌∷◌, MatchResult, IfOk, length, codes};
ghost use Rattle.std.specs.Fmt.{decimal};
ghost use Rattle.ruby_builtin_base.specs.Answers as answers;
ghost use Rattle.ruby_builtin_base.specs.Answers.{OrMemory, IsRead, IsRefused};
ghost use Rattle.ruby_builtin_base.specs.Arguments as spec;

use crate::call::Call;
use crate::called::Called;
use ruby_types::{ErrorClass, Items, Pairs, Text, Value};
use std::alloc::{AllocError, Global};

/// The text of a wrong count: `wrong number of arguments (given 1, expected 2)`.
pub fn wrong_count_text(alloc: Global, given: usize, expected: &[u8]) -> Result<Text, AllocError>
    ensures { IfOk result (λ text. text ≡ answers.wrong_count_text given expected.now) }
{
    Text::from_vec(alloc, wrong_count(alloc, given, expected)?)
}

fn wrong_count(alloc: Global, given: usize, expected: &[u8]) -> Result<Vec<u8>, AllocError>
    ensures { IfOk result (λ text. text.items ≡ answers.wrong_count_text given expected.now) }
{
    let count = format!(in alloc; "{given}")?;
    let mut text = Vec::from_slice(alloc, b"wrong number of arguments (given ")?;
    text.extend_from_slice(count.as_bytes())?;
    text.extend_from_slice(b", expected ")?;
    text.extend_from_slice(expected)?;
    text.push(b')')?;
    Ok(text)
}

fn wrong_argument_text(alloc: Global, name: &[u8]) -> Result<Text, AllocError>
    ensures { IfOk result (λ text. text ≡ answers.wrong_argument_text name.now) }
{
    let mut text = Vec::from_slice(alloc, b"wrong argument for '")?;
    text.extend_from_slice(name)?;
    text.push(b'\'')?;
    Text::from_vec(alloc, text)
}

impl<'a> Call<'a> {
    /// Answers that so many arguments are expected, as the error prints it: `2` or `1..2`.
    pub fn wrong_count(&self, expected: &[u8]) -> Called
        ensures { OrMemory result (answers.answered self.now (answers.WrongCount expected.now)) }
    {
        match self.pays(0) {
            Err(spent) => spent,
            Ok(_) => match wrong_count_text(self.alloc, self.args.len(), expected) {
                Ok(text) => self.raises(ErrorClass::Argument, text.as_bytes()),
                Err(_) => Called::Memory,
            },
        }
    }

    /// Answers that an argument isn't of the kind that the row takes.
    pub fn wrong_argument(&self) -> Called
        ensures { OrMemory result (answers.answered self.now answers.WrongArgument) }
    {
        match self.pays(0) {
            Err(spent) => spent,
            Ok(_) => match wrong_argument_text(self.alloc, self.name) {
                Ok(text) => self.raises(ErrorClass::Kind, text.as_bytes()),
                Err(_) => Called::Memory,
            },
        }
    }

    /// No argument, or the answer to others.
    pub fn no_argument(&self) -> Result<(), Called>
        ensures { MatchResult result (λ _. self.now.args.now ≡ [])
            (λ called. (answer : answers.Answer) →
            OrMemory called (answers.answered self.now (spec.takes_none answer self.now.args.now))) }
    {
        match self.args {
            [] => Ok(()),
            _ => Err(self.wrong_count(b"0")),
        }
    }

    /// The one argument, or the answer to others.
    pub fn one_value(&self) -> Result<&'a Value, Called>
        ensures { MatchResult result (λ x. IsRead spec.takes_value self.now x.now)
            (IsRefused spec.takes_value self.now) }
    {
        match self.args {
            [value] => Ok(value),
            _ => Err(self.wrong_count(b"1")),
        }
    }

    /// The one argument that is a number, or the answer to others.
    pub fn one_int(&self) -> Result<i64, Called>
        ensures { MatchResult result (IsRead spec.takes_int self.now) (IsRefused spec.takes_int self.now) }
    {
        match self.one_value()? {
            Value::Int(number) => Ok(*number),
            _ => Err(self.wrong_argument()),
        }
    }

    /// The two arguments, if both are numbers, or the answer to others.
    pub fn two_ints(&self) -> Result<(i64, i64), Called>
        ensures { MatchResult result (IsRead spec.takes_two_ints self.now) (IsRefused spec.takes_two_ints self.now) }
    {
        match self.args {
            [Value::Int(first), Value::Int(second)] => Ok((*first, *second)),
            [_, _] => Err(self.wrong_argument()),
            _ => Err(self.wrong_count(b"2")),
        }
    }

    /// The one argument that is a text, or the answer to others.
    pub fn one_text(&self) -> Result<&'a Text, Called>
        ensures { MatchResult result (λ text. IsRead spec.takes_text self.now text.now)
            (IsRefused spec.takes_text self.now) }
    {
        match self.one_value()? {
            Value::Str(text) => Ok(text),
            _ => Err(self.wrong_argument()),
        }
    }

    /// The one argument that is an array, or the answer to others.
    pub fn one_array(&self) -> Result<&'a Items, Called>
        ensures { MatchResult result (λ items. IsRead spec.takes_array self.now items.now)
            (IsRefused spec.takes_array self.now) }
    {
        match self.one_value()? {
            Value::Array(items) => Ok(items),
            _ => Err(self.wrong_argument()),
        }
    }

    /// The one argument that is a hash, or the answer to others.
    pub fn one_hash(&self) -> Result<&'a Pairs, Called>
        ensures { MatchResult result (λ pairs. IsRead spec.takes_hash self.now pairs.now)
            (IsRefused spec.takes_hash self.now) }
    {
        match self.one_value()? {
            Value::Hash(pairs) => Ok(pairs),
            _ => Err(self.wrong_argument()),
        }
    }
}
