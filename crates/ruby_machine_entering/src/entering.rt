ghost use Rattle.std.specs.Prelude.{◌≡◌, ◌+◌, ◌-◌, ◌<◌, ℕ, IfOk, List, length};
ghost use Rattle.program_lookups.specs.Codes.{method_of};
ghost use Rattle.program_places.specs.Places.{Index};
ghost use Rattle.program_places.specs.Places as places;
ghost use Rattle.ruby_nodes.specs.Entries.{Entry, entry_at};
ghost use Rattle.ruby_types.specs.declared.value.Value.{Value};
ghost use Rattle.ruby_machine_names.specs.Steps.{here_of};
ghost use Rattle.ruby_machine_frames.specs.Rest.{KeptFrom, load};
ghost use Rattle.ruby_machine_entering.specs.Methods.{code_here, enters, invokes, leaving_frame};

use lists::Copying;
use program_lookups::{BodyCode, MethodCode};
use ruby_machine_built_in::{too_deep, wrong_count};
use ruby_machine_frames::{Caller, Control, Core, Frame, Stop, stop_with};
use ruby_machine_names::HereCode;
use ruby_machine_state::{StateCode, bind, variable};
use ruby_machine_values::made;
use ruby_types::{Items, Text, Value};
use std::alloc::{AllocError, Global};
use std::mem;

/// What the call of a method gives: the method's value, or for `new` the object that `initialize` leaves as self.
#[derive(Drop)]
pub enum Giving {
    Value,
    Object,
}

/// The frame behind which a method runs.
fn leaving(giving: Giving, caller: Caller) -> Frame
    ensures { result ≡ leaving_frame giving caller }
{
    match giving {
        Giving::Value => Frame::Leave(caller),
        Giving::Object => Frame::LeaveNew(caller),
    }
}

/// Where the code of a method runs.
fn code_of(method: &MethodCode, limit: u32) -> Result<HereCode, AllocError>
    ensures { IfOk result (λ here. here_of here ≡ code_here limit method.now) }
{
    Ok(HereCode {
        file: Some(method.file.copy()?),
        scopes: method.scopes.copy()?,
        limit,
    })
}

/// Reads an instance variable, as the body of a reader.
fn read(
    core: &mut Core,
    alloc: Global,
    method: &MethodCode,
    name: &Text,
    on: Value,
    giving: Giving,
) -> Result<Control, Stop>
    ensures { (index : Index) (known : List Entry) (left : ℕ) (args : List Value) → KeptFrom index known
        (enters index known core.old giving left (method_of known method.now) (places.Reads name.now) on args)
        (load core.old + 9) result core.new }
{
    if !core.spend() {
        return Err(stop_with(code_of(method, core.here.limit)?.spent(alloc)));
    }
    match giving {
        Giving::Value => Ok(Control::Gives(variable(&on, name)?)),
        Giving::Object => made(core, alloc, on),
    }
}

/// Runs the statements of a method in a frame of its own.
fn enter(
    core: &mut Core,
    alloc: Global,
    method: &MethodCode,
    first: u32,
    on: Value,
    args: &Items,
    giving: Giving,
) -> Result<Control, Stop>
    requires left { 0 < core.old.left }
    requires count { length args.now ≡ length method.now.params }
    ensures { (index : Index) (known : List Entry) → KeptFrom index known
        (enters index known core.old giving (core.old.left - 1) (method_of known method.now)
        (places.Statements (entry_at known first).body) on args.now)
        (load core.old + 9) result core.new }
{
    let here = code_of(method, core.here.limit)?;
    let locals = bind(alloc, &method.params, args)?;
    let state = StateCode { itself: on, locals };
    let caller = Caller {
        here: mem::replace(&mut core.here, here),
        state: mem::replace(&mut core.state, state),
        left: core.left,
    };
    core.left -= 1;
    core.push(leaving(giving, caller))?;
    Ok(Control::Runs(first, Value::Nil))
}

/// Calls a method that was found. A wrong count of arguments is told before a frame is opened, both at the caller.
pub fn invoke(
    core: &mut Core,
    alloc: Global,
    method: &MethodCode,
    on: Value,
    args: &Items,
    giving: Giving,
) -> Result<Control, Stop>
    ensures { (index : Index) (known : List Entry) → KeptFrom index known
        (invokes index known core.old giving (method_of known method.now) on args.now)
        (load core.old + 9) result core.new }
{
    if args.len() != method.params.len() {
        return Err(wrong_count(alloc, &core.here, args.len(), method.params.len()));
    }
    if core.left == 0 {
        return Err(too_deep(alloc, &core.here));
    }
    match &method.body {
        BodyCode::Reads(name) => read(core, alloc, method, name, on, giving),
        BodyCode::Statements(first) => enter(core, alloc, method, *first, on, args, giving),
    }
}
