ghost use Rattle.std.specs.Prelude.{◌≡◌, ◌<◌, ◌++◌, ◌∷◌, [], length, slice_get, slice_set, IfOk, MatchOption, OnOk};
ghost use Rattle.std.specs.Prelude.{Some, bytes_eq};
ghost use Rattle.ruby_runs.specs.Bodies as spec;
ghost use Rattle.ruby_types.specs.declared.value.Value.{Value};
ghost use Rattle.ruby_types.specs.declared.value.Value.TheVariants.{Sym};
ghost use Rattle.ruby_machine_state.specs.States.{LocalAt, NewLocal, NewVariable, VariableAt, has_name};

use lists::{Copying, Listed};
use ruby_types::{Items, Pairs, Text, TextList, Value};
use std::alloc::{AllocError, Global};

/// What code changes: self, in `initialize` alone, and its locals in the order of their first assignment.
#[derive(Drop)]
pub struct StateCode {
    pub itself: Value,
    pub locals: Vec<(Text, Value)>,
}

fn same_name(a: &Text, b: &Text) -> bool
    ensures { result ≡ bytes_eq a.now b.now }
{
    a.as_bytes() == b.as_bytes()
}

/// The value of a local, which is nil where it was never assigned.
pub fn local(locals: &[(Text, Value)], name: &Text) -> Result<Value, AllocError>
    ensures { IfOk result (λ value. value ≡ spec.local_of locals.now name.now) }
{
    'locals: for (own, value) in locals {
        if same_name(own, name) {
            return value.copy();
        }
    }
    Ok(Value::Nil)
}

/// The place of a local, if it was assigned.
fn place_of(locals: &[(Text, Value)], name: &Text) -> Option<usize>
    ensures { MatchOption result (NewLocal locals.now name.now) (LocalAt locals.now name.now) }
{
    'locals: for place in 0..locals.len() {
        if same_name(&locals[place].0, name) {
            return Some(place);
        }
    }
    None
}

/// Assigns a local.
pub fn assign(locals: &mut Vec<(Text, Value)>, name: Text, value: Value) -> Result<(), AllocError>
    ensures { OnOk result (locals.new.items ≡ spec.with_local locals.old.items name value) }
{
    match place_of(locals.as_slice(), &name) {
        Some(place) => {
            locals[place] = (name, value);
            Ok(())
        }
        None => {
            locals.push((name, value))?;
            Ok(())
        }
    }
}

/// The parameters with their arguments.
pub fn bind(
    alloc: Global,
    params: &TextList,
    args: &Items,
) -> Result<Vec<(Text, Value)>, AllocError>
    requires { length params.now ≡ length args.now }
    ensures { IfOk result (λ locals. locals.items ≡ spec.bound params.now args.now) }
{
    let mut locals = Vec::with_capacity(alloc, params.len())?;
    'params: for at in 0..params.len() {
        locals.push((params.at(at).copy()?, args.at(at).copy()?))?;
    }
    Ok(locals)
}

fn is_named(key: &Value, name: &Text) -> bool
    ensures { result ≡ has_name key.now name.now }
{
    match key {
        Value::Sym(own) => same_name(own, name),
        _ => name.is_empty(),
    }
}

/// The value of an instance variable of self, which is nil where it was never assigned.
pub fn variable(itself: &Value, name: &Text) -> Result<Value, AllocError>
    ensures { IfOk result (λ value. value ≡ spec.ivar_of itself.now name.now) }
{
    match itself {
        Value::Object(_, variables) => variable_in(variables.as_slice(), name),
        _ => Ok(Value::Nil),
    }
}

fn variable_in(variables: &[(Value, Value)], name: &Text) -> Result<Value, AllocError>
    ensures { IfOk result (λ value. value ≡ spec.ivar_in variables.now name.now) }
{
    'variables: for (key, value) in variables {
        if is_named(key, name) {
            return value.copy();
        }
    }
    Ok(Value::Nil)
}

/// Self after an assignment to an instance variable. What is no object stays as it is.
pub fn with_variable(
    alloc: Global,
    itself: Value,
    name: Text,
    value: Value,
) -> Result<Value, AllocError>
    ensures { IfOk result (λ assigned. assigned ≡ spec.with_ivar itself name value) }
{
    match itself {
        Value::Object(class, variables) => {
            let variables = with_pair(alloc, variables, name, value)?;
            Ok(Value::Object(class, variables))
        }
        other => Ok(other),
    }
}

/// The place of an instance variable, if it was assigned.
fn variable_place(variables: &[(Value, Value)], name: &Text) -> Option<usize>
    ensures { MatchOption result (NewVariable variables.now name.now) (VariableAt variables.now name.now) }
{
    'variables: for place in 0..variables.len() {
        if is_named(&variables[place].0, name) {
            return Some(place);
        }
    }
    None
}

fn with_pair(alloc: Global, variables: Pairs, name: Text, value: Value) -> Result<Pairs, AllocError>
    ensures { IfOk result (λ pairs. pairs ≡ spec.set_pair variables name value) }
{
    match variable_place(variables.as_slice(), &name) {
        Some(place) => replaced(alloc, variables.as_slice(), place, value),
        None => one_more(variables, name, value),
    }
}

fn one_more(mut variables: Pairs, name: Text, value: Value) -> Result<Pairs, AllocError>
    ensures { IfOk result (λ pairs. pairs ≡ variables ++ (Sym name, value) ∷ []) }
{
    variables.push((Value::Sym(name), value))?;
    Ok(variables)
}

fn replaced(
    alloc: Global,
    variables: &[(Value, Value)],
    place: usize,
    value: Value,
) -> Result<Pairs, AllocError>
    requires { place < length variables.now }
    ensures { (pair : Value × Value) → slice_get variables.now place ≡ Some pair →
        IfOk result (λ pairs. pairs ≡ slice_set variables.now place (pair.0, value)) }
{
    let mut pairs = pairs_of(alloc, variables)?;
    pairs[place].1 = value;
    Pairs::from_vec(alloc, pairs)
}

/// The pairs in a vector.
fn pairs_of(alloc: Global, variables: &[(Value, Value)]) -> Result<Vec<(Value, Value)>, AllocError>
    ensures { IfOk result (λ pairs. pairs.items ≡ variables.now) }
{
    let pairs = Listed::from_slice(alloc, variables)?;
    Ok(pairs.into_vec())
}
