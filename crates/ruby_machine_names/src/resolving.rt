ghost use Rattle.std.specs.Prelude.{◌≡◌, ℕ, Ok, drop};
ghost use Rattle.ruby_runs.specs.Doing.{Doing};
ghost use Rattle.ruby_runs.specs.Names.{Found};
ghost use Rattle.ruby_runs.specs.Names as spec;
ghost use Rattle.ruby_machine_names.specs.Steps.{IsWait, NameGoes, WholeGoes, here_of};
ghost use Rattle.ruby_machine_names.specs.Profile.{profile};
ghost use Rattle.ruby_machine_names.specs.Names as names;

use crate::here::{Failure, HereCode};
use crate::names::{Awaited, FoundCode, NameStep, answer, begin_name, next_name, segment_turn};
use lists::Copying;
use program_lookups::Lookups;
use ruby_types::{CPath, ConstRef, Task, Value};
use std::alloc::{AllocError, Global};

/// A constant whose resolving waits for the value of a task: all its names, the place of the first of them that is
/// still to be looked up, and what is done with the value.
#[derive(Drop)]
pub struct NameWait {
    pub names: CPath,
    pub place: usize,
    pub in_code: bool,
    pub awaited: Awaited,
}

/// What resolving a constant comes to.
#[derive(Drop)]
pub enum Resolving {
    Found(FoundCode),
    Asks(Task, NameWait),
}

/// The names from a place on, behind what was found.
fn rest_of_names<P: Lookups>(
    alloc: Global,
    program: &P,
    here: &HereCode,
    in_code: bool,
    all: &CPath,
    place: usize,
    mut found: FoundCode,
    turns: &mut u32,
) -> Result<Resolving, Failure>
    ensures { let i = P.index program.now in
        let h = here_of here.now in
        WholeGoes (names.later i h) (spec.rest_of_names i profile h in_code (names.found_of found) (drop place all.now))
        turns.old result turns.new }
{
    'names: for at in place..all.len() {
        let step = match next_name(alloc, program, here, in_code, &found, all.at(at), turns) {
            Ok(step) => step,
            Err(failure) => return Err(failure),
        };
        match step {
            NameStep::Gives(next) => found = next,
            NameStep::Asks(task, awaited) => return waits(all, at + 1, in_code, task, awaited),
        }
    }
    Ok(Resolving::Found(found))
}

fn waits(
    all: &CPath,
    place: usize,
    in_code: bool,
    task: Task,
    awaited: Awaited,
) -> Result<Resolving, Failure>
    ensures { IsWait all.now place in_code task awaited result }
{
    Ok(Resolving::Asks(
        task,
        NameWait {
            names: all.copy()?,
            place,
            in_code,
            awaited,
        },
    ))
}

/// Goes on with the names from a place on behind what a name came to.
fn go_on<P: Lookups>(
    alloc: Global,
    program: &P,
    here: &HereCode,
    in_code: bool,
    all: CPath,
    place: usize,
    step: NameStep,
    turns: &mut u32,
) -> Result<Resolving, Failure>
    ensures { let i = P.index program.now in
        let h = here_of here.now in
        (d : Doing Found) (old : ℕ) → NameGoes (names.awaited i h) d old (Ok step) turns.old →
        WholeGoes (names.later i h) (names.with_rest i h in_code (drop place all) d) old result turns.new }
{
    match step {
        NameStep::Gives(found) => {
            rest_of_names(alloc, program, here, in_code, &all, place, found, turns)
        }
        NameStep::Asks(task, awaited) => Ok(Resolving::Asks(
            task,
            NameWait {
                names: all,
                place,
                in_code,
                awaited,
            },
        )),
    }
}

/// Resolves a constant behind the turn that its first name begins.
pub fn resolve_begun<P: Lookups>(
    alloc: Global,
    program: &P,
    here: &HereCode,
    in_code: bool,
    constant: &ConstRef,
    turns: &mut u32,
) -> Result<Resolving, Failure>
    ensures { let i = P.index program.now in
        let h = here_of here.now in
        WholeGoes (names.later i h) (names.begun i h in_code constant.now.top constant.now.path) turns.old result
        turns.new }
{
    if constant.path.is_empty() {
        return Ok(Resolving::Found(nil_found(alloc)));
    }
    let all = constant.path.copy()?;
    let first = constant.path.at(0);
    match begin_name(alloc, program, here, in_code, constant.top, first, turns) {
        Ok(step) => go_on(alloc, program, here, in_code, all, 1, step, turns),
        Err(failure) => Err(failure),
    }
}

/// Resolves a constant as it is written. In code each of its names begins a turn, and ancestors are searched.
pub fn resolve<P: Lookups>(
    alloc: Global,
    program: &P,
    here: &HereCode,
    in_code: bool,
    constant: &ConstRef,
    turns: &mut u32,
) -> Result<Resolving, Failure>
    ensures { let i = P.index program.now in
        let h = here_of here.now in
        WholeGoes (names.later i h) (spec.resolved i profile h in_code constant.now) turns.old result turns.new }
{
    match segment_turn(alloc, here, in_code, turns) {
        Ok(()) => resolve_begun(alloc, program, here, in_code, constant, turns),
        Err(failure) => Err(failure),
    }
}

/// A constant without names, which no text spells, is nil.
fn nil_found(alloc: Global) -> FoundCode
    ensures { names.found_of result ≡ names.no_name }
{
    FoundCode {
        path: CPath::new(alloc),
        value: Value::Nil,
        assigned: false,
    }
}

/// Goes on with the value that was asked for.
pub fn resume<P: Lookups>(
    alloc: Global,
    program: &P,
    here: &HereCode,
    wait: NameWait,
    value: Value,
    turns: &mut u32,
) -> Result<Resolving, Failure>
    ensures { let i = P.index program.now in
        let h = here_of here.now in
        WholeGoes (names.later i h) (names.later i h wait value) turns.old result turns.new }
{
    let NameWait {
        names,
        place,
        in_code,
        awaited,
    } = wait;
    match answer(alloc, program, here, awaited, value, turns) {
        Ok(step) => go_on(alloc, program, here, in_code, names, place, step, turns),
        Err(failure) => Err(failure),
    }
}
