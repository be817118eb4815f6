//! The built-in methods of Ruby's values, as the table of `specs/Rows.antt` has them.
//!
//! `call(alloc, &Value::Int(-7), b"/", &[Value::Int(2)], left)` is the value -4 with its cost of 3 turns.
#![tactic(auto)]

ghost use Rattle.std.specs.Prelude.{◌≡◌};
ghost use Rattle.ruby_builtin_base.specs.Answers.{OrMemory, answered};
ghost use Rattle.ruby_builtin.specs.Rows.{built_in, built_in_called, own_row, own_called};

use ruby_builtin_arrays::call_array;
use ruby_builtin_base::Call;
pub use ruby_builtin_base::{
    Called, class_name, error_text, inspect, push_inspect, push_to_s, to_s, wrong_count_text,
};
use ruby_builtin_common::{call_module, call_sym, call_value};
use ruby_builtin_hashes::call_hash;
use ruby_builtin_numbers::call_int;
use ruby_builtin_texts::call_str;
use ruby_types::{Items, Value};
use std::alloc::Global;

/// Calls a built-in method of a receiver with so many turns left: its value with its cost in turns, its error, or
/// `NoMethod` exactly where no row has this name for the receiver's kind. A cost above `left` is the error TurnBudget,
/// with an empty message, before anything is made. Errors have no path.
pub fn call(alloc: Global, on: &Value, name: &[u8], args: &Items, left: u64) -> Called
    ensures { OrMemory result (built_in_called left on.now name.now args.now) }
{
    let call = Call::new(alloc, on, name, args.as_slice(), left);
    match call_own(&call, on) {
        Called::NoMethod => call_value(&call, on),
        called => called,
    }
}

/// Calls a method of the receiver's own kind.
fn call_own(call: &Call, on: &Value) -> Called
    ensures { OrMemory result (own_called call.now (own_row on.now call.now.name.now)) }
{
    match on {
        Value::Int(number) => call_int(call, *number),
        Value::Str(text) => call_str(call, text),
        Value::Sym(name) => call_sym(call, name),
        Value::Array(items) => call_array(call, items),
        Value::Hash(pairs) => call_hash(call, pairs),
        Value::Module(path) => call_module(call, path),
        _ => Called::NoMethod,
    }
}
