ghost use Rattle.std.specs.Prelude.{◌≡◌, ◌++◌, ◌∷◌, [], ℕ, Ok, codes, IfOk};
ghost use Rattle.ruby_runs.specs.Names as spec;
ghost use Rattle.ruby_runs.specs.Doing.{Doing};
ghost use Rattle.ruby_types.specs.declared.value.Value.{Value};
ghost use Rattle.ruby_builtin_base.specs.Printed.{inspect};
ghost use Rattle.ruby_machine_names.specs.Steps.{Ends, NameGoes, PathGoes, Settles, TurnGoes, here_of};
ghost use Rattle.ruby_machine_names.specs.Profile.{profile};
ghost use Rattle.ruby_machine_names.specs.Names as names;
ghost use Rattle.ruby_machine_names.specs.declared.search.Outer.TheVariants as outer;
ghost use Rattle.program_places.specs.Paths.{Path};
ghost use Rattle.program_places.specs.Places.{Index};

use crate::here::{Failure, HereCode, spend};
use crate::search::{Outer, asks_ancestors, at_top, fallback, members, own, search};
use lists::Copying;
use program_lookups::{Lookups, Standing};
use ruby_builtin_base::push_inspect;
use ruby_types::{CPath, ErrorClass, Task, Text, Value};
use std::alloc::{AllocError, Global};

/// A constant that was referred to, its value, and whether it is an assigned one.
#[derive(Drop)]
pub struct FoundCode {
    pub path: CPath,
    pub value: Value,
    pub assigned: bool,
}

/// What the resolving of a name does when the value of the task that it asked for is there.
#[derive(Drop)]
pub enum Awaited {
    /// The file was loaded: the constant is asked for, which is an assigned one or not.
    File(CPath, bool),
    Const(CPath, bool),
    /// The ancestors are searched for the name.
    Ancestors(Outer, Text),
}

/// What looking a name up comes to.
#[derive(Drop)]
pub enum PathStep {
    Gives(CPath),
    Asks(Task),
}

/// What referring to a constant comes to.
#[derive(Drop)]
pub enum NameStep {
    Gives(FoundCode),
    Asks(Task, Awaited),
}

/// The ancestors' own constants, which are searched in code alone, and else the fallback.
fn inherit<P: Lookups>(
    alloc: Global,
    program: &P,
    here: &HereCode,
    path: &CPath,
    outer: &Outer,
    name: &Text,
    turns: &mut u32,
) -> Result<PathStep, Failure>
    ensures { let i = P.index program.now in
        let h = here_of here.now in
        PathGoes (λ v. names.after_ancestors i h outer.now name.now (spec.members_of v))
        (names.inherits i h path.now outer.now name.now) turns.old result turns.new }
{
    if asks_ancestors(program, path) {
        if !spend(turns) {
            return Err(here.spent(alloc));
        }
        return Ok(PathStep::Asks(Task::Ancestors(path.copy()?)));
    }
    gives(alone(alloc, program, here, path, outer, name))
}

/// The own constants of a path alone, and else the fallback.
fn alone<P: Lookups>(
    alloc: Global,
    program: &P,
    here: &HereCode,
    path: &CPath,
    outer: &Outer,
    name: &Text,
) -> Result<CPath, Failure>
    ensures { let i = P.index program.now in
        Settles (names.after_ancestors i (here_of here.now) outer.now name.now (path.now ∷ [])) result }
{
    match own(alloc, program, path, name) {
        Ok(Some(found)) => Ok(found),
        Ok(None) => fallback(alloc, program, here, outer, name),
        Err(failure) => Err(failure),
    }
}

/// A path that was found without turns, as a step.
fn gives(found: Result<CPath, Failure>) -> Result<PathStep, Failure>
    ensures { (later : Value → Doing Path) (d : Doing Path) (turns : ℕ) → Settles d found →
        PathGoes later d turns result turns }
{
    match found {
        Ok(path) => Ok(PathStep::Gives(path)),
        Err(failure) => Err(failure),
    }
}

/// A bare name.
fn bare<P: Lookups>(
    alloc: Global,
    program: &P,
    here: &HereCode,
    in_code: bool,
    name: &Text,
    turns: &mut u32,
) -> Result<PathStep, Failure>
    ensures { let i = P.index program.now in
        let h = here_of here.now in
        PathGoes (λ v. names.after_ancestors i h outer.Scopes name.now (spec.members_of v))
        (spec.bare i profile h in_code name.now) turns.old result turns.new }
{
    match search(alloc, program, name, here.scopes.as_slice())? {
        Some(found) => Ok(PathStep::Gives(found)),
        None => bare_inherited(alloc, program, here, in_code, name, turns),
    }
}

fn bare_inherited<P: Lookups>(
    alloc: Global,
    program: &P,
    here: &HereCode,
    in_code: bool,
    name: &Text,
    turns: &mut u32,
) -> Result<PathStep, Failure>
    ensures { let i = P.index program.now in
        let h = here_of here.now in
        PathGoes (λ v. names.after_ancestors i h outer.Scopes name.now (spec.members_of v))
        (names.bare_inherits i h in_code name.now) turns.old result turns.new }
{
    if !in_code {
        gives(fallback(alloc, program, here, &Outer::Scopes, name))
    } else if here.scopes.is_empty() {
        gives(fallback(alloc, program, here, &Outer::Scopes, name))
    } else {
        let scope = here.scopes.at(0);
        inherit(alloc, program, here, scope, &Outer::Scopes, name, turns)
    }
}

/// A name behind another constant.
fn qualified<P: Lookups>(
    alloc: Global,
    program: &P,
    here: &HereCode,
    in_code: bool,
    path: &CPath,
    name: &Text,
    turns: &mut u32,
) -> Result<PathStep, Failure>
    ensures { let i = P.index program.now in
        let h = here_of here.now in
        PathGoes (λ v. names.after_ancestors i h (outer.Within path.now) name.now (spec.members_of v))
        (spec.qualified i profile h in_code path.now name.now) turns.old result turns.new }
{
    match own(alloc, program, path, name) {
        Ok(Some(found)) => Ok(PathStep::Gives(found)),
        Ok(None) => qualified_inherited(alloc, program, here, in_code, path, name, turns),
        Err(failure) => Err(failure),
    }
}

fn qualified_inherited<P: Lookups>(
    alloc: Global,
    program: &P,
    here: &HereCode,
    in_code: bool,
    path: &CPath,
    name: &Text,
    turns: &mut u32,
) -> Result<PathStep, Failure>
    ensures { let i = P.index program.now in
        let h = here_of here.now in
        PathGoes (λ v. names.after_ancestors i h (outer.Within path.now) name.now (spec.members_of v))
        (names.qualified_inherits i h in_code path.now name.now) turns.old result turns.new }
{
    let outer = Outer::Within(path.copy()?);
    if in_code {
        inherit(alloc, program, here, path, &outer, name, turns)
    } else {
        gives(fallback(alloc, program, here, &outer, name))
    }
}

fn not_a_module_text(alloc: Global, value: &Value) -> Result<Text, AllocError>
    ensures { IfOk result (λ text. text ≡ inspect value.now ++ codes " is not a class/module") }
{
    let mut text = Vec::new(alloc);
    push_inspect(alloc, &mut text, value)?;
    text.extend_from_slice(b" is not a class/module")?;
    Text::from_vec(alloc, text)
}

fn not_a_module(alloc: Global, here: &HereCode, value: &Value) -> Failure
    ensures { Ends (names.not_a_module {A = Path} (here_of here.now) value.now) result }
{
    match not_a_module_text(alloc, value) {
        Ok(text) => here.error(alloc, ErrorClass::Kind, text),
        Err(_) => Failure::Memory,
    }
}

/// A name behind what was found.
fn qualified_in<P: Lookups>(
    alloc: Global,
    program: &P,
    here: &HereCode,
    in_code: bool,
    found: &FoundCode,
    name: &Text,
    turns: &mut u32,
) -> Result<PathStep, Failure>
    ensures { let i = P.index program.now in
        let h = here_of here.now in
        PathGoes (λ v. names.after_ancestors i h (outer.Within found.now.path) name.now (spec.members_of v))
        (spec.qualified_in i profile h in_code (names.found_of found.now) name.now) turns.old result turns.new }
{
    if found.assigned {
        Err(not_a_module(alloc, here, &found.value))
    } else {
        qualified(alloc, program, here, in_code, &found.path, name, turns)
    }
}

/// The first name of a constant.
fn first_name<P: Lookups>(
    alloc: Global,
    program: &P,
    here: &HereCode,
    in_code: bool,
    top: bool,
    name: &Text,
    turns: &mut u32,
) -> Result<PathStep, Failure>
    ensures { let i = P.index program.now in
        let h = here_of here.now in
        PathGoes (λ v. names.after_ancestors i h outer.Scopes name.now (spec.members_of v))
        (spec.first_name i profile h in_code top name.now) turns.old result turns.new }
{
    if top {
        gives(at_top(alloc, program, here, &[], name))
    } else {
        bare(alloc, program, here, in_code, name, turns)
    }
}

/// Asks for a constant.
fn ask_const(
    alloc: Global,
    here: &HereCode,
    path: CPath,
    assigned: bool,
    turns: &mut u32,
) -> Result<NameStep, Failure>
    ensures { (i : Index) → NameGoes (names.awaited i (here_of here.now))
        (spec.asked_constant i profile (here_of here.now) path assigned) turns.old result turns.new }
{
    if !spend(turns) {
        return Err(here.spent(alloc));
    }
    let task = Task::Const(path.copy()?);
    Ok(NameStep::Asks(task, Awaited::Const(path, assigned)))
}

/// Asks for a file, and then for a constant of it.
fn ask_file(
    alloc: Global,
    here: &HereCode,
    file: &Text,
    path: CPath,
    assigned: bool,
    turns: &mut u32,
) -> Result<NameStep, Failure>
    ensures { (i : Index) → NameGoes (names.awaited i (here_of here.now))
        (names.file_first i (here_of here.now) file.now path assigned) turns.old result turns.new }
{
    if !spend(turns) {
        return Err(here.spent(alloc));
    }
    let task = Task::File(file.copy()?);
    Ok(NameStep::Asks(task, Awaited::File(path, assigned)))
}

fn is_near<P: Lookups>(program: &P, here: &HereCode, owner: &Text) -> bool
    ensures { result ≡ spec.is_near (P.index program.now) profile here.now.file owner.now }
{
    match &here.file {
        None => false,
        Some(file) => program.near(file, owner),
    }
}

/// Refers to a constant that a file owns.
fn refer_owned<P: Lookups>(
    alloc: Global,
    program: &P,
    here: &HereCode,
    file: &Text,
    path: CPath,
    assigned: bool,
    turns: &mut u32,
) -> Result<NameStep, Failure>
    ensures { let i = P.index program.now in
        let h = here_of here.now in
        NameGoes (names.awaited i h) (names.refer_owned i h file.now path assigned) turns.old result turns.new }
{
    if is_near(program, here, file) {
        ask_const(alloc, here, path, assigned, turns)
    } else {
        ask_file(alloc, here, file, path, assigned, turns)
    }
}

/// The value of a namespace without a file.
fn module_found(path: CPath) -> Result<FoundCode, AllocError>
    ensures { IfOk result (λ found. names.found_of found ≡ names.module_at path) }
{
    Ok(FoundCode {
        value: Value::Module(path.copy()?),
        path,
        assigned: false,
    })
}

/// Refers to a constant.
pub fn refer<P: Lookups>(
    alloc: Global,
    program: &P,
    here: &HereCode,
    path: CPath,
    turns: &mut u32,
) -> Result<NameStep, Failure>
    ensures { let i = P.index program.now in
        let h = here_of here.now in
        NameGoes (names.awaited i h) (spec.refer i profile h path) turns.old result turns.new }
{
    match program.place(&path) {
        Standing::Missing => Ok(NameStep::Gives(module_found(path)?)),
        Standing::Implicit => Ok(NameStep::Gives(module_found(path)?)),
        Standing::Faulty(file, _) => refer_owned(alloc, program, here, file, path, false, turns),
        Standing::Assigned(file, _, _) => {
            refer_owned(alloc, program, here, file, path, true, turns)
        }
        Standing::Opened(file, _) => refer_owned(alloc, program, here, file, path, false, turns),
    }
}

/// Begins the turn of a name in code.
pub fn segment_turn(
    alloc: Global,
    here: &HereCode,
    in_code: bool,
    turns: &mut u32,
) -> Result<(), Failure>
    ensures { (i : Index) → let d = spec.segment_turn i profile (here_of here.now) in_code in
        TurnGoes d turns.old result turns.new }
{
    if in_code && !spend(turns) {
        return Err(here.spent(alloc));
    }
    Ok(())
}

/// Refers to what a name was looked up as.
fn refer_path<P: Lookups>(
    alloc: Global,
    program: &P,
    here: &HereCode,
    step: PathStep,
    outer: Outer,
    name: &Text,
    turns: &mut u32,
) -> Result<NameStep, Failure>
    ensures { let i = P.index program.now in
        let h = here_of here.now in
        (d : Doing Path) (old : ℕ) →
        PathGoes (λ v. names.after_ancestors i h outer name.now (spec.members_of v)) d old (Ok step) turns.old →
        NameGoes (names.awaited i h) (names.referred i h d) old result turns.new }
{
    match step {
        PathStep::Gives(path) => refer(alloc, program, here, path, turns),
        PathStep::Asks(task) => Ok(NameStep::Asks(task, Awaited::Ancestors(outer, name.copy()?))),
    }
}

/// One name behind what was found.
pub fn next_name<P: Lookups>(
    alloc: Global,
    program: &P,
    here: &HereCode,
    in_code: bool,
    found: &FoundCode,
    name: &Text,
    turns: &mut u32,
) -> Result<NameStep, Failure>
    ensures { let i = P.index program.now in
        let h = here_of here.now in
        NameGoes (names.awaited i h) (names.next_named i h in_code (names.found_of found.now) name.now) turns.old result
        turns.new }
{
    match segment_turn(alloc, here, in_code, turns) {
        Ok(()) => next_begun(alloc, program, here, in_code, found, name, turns),
        Err(failure) => Err(failure),
    }
}

/// The same behind the turn of the name.
fn next_begun<P: Lookups>(
    alloc: Global,
    program: &P,
    here: &HereCode,
    in_code: bool,
    found: &FoundCode,
    name: &Text,
    turns: &mut u32,
) -> Result<NameStep, Failure>
    ensures { let i = P.index program.now in
        let h = here_of here.now in
        NameGoes (names.awaited i h) (names.next_begun i h in_code (names.found_of found.now) name.now) turns.old result
        turns.new }
{
    let outer = Outer::Within(found.path.copy()?);
    match qualified_in(alloc, program, here, in_code, found, name, turns) {
        Ok(step) => refer_path(alloc, program, here, step, outer, name, turns),
        Err(failure) => Err(failure),
    }
}

/// The first name of a constant, whose turn is begun.
pub fn begin_name<P: Lookups>(
    alloc: Global,
    program: &P,
    here: &HereCode,
    in_code: bool,
    top: bool,
    name: &Text,
    turns: &mut u32,
) -> Result<NameStep, Failure>
    ensures { let i = P.index program.now in
        let h = here_of here.now in
        NameGoes (names.awaited i h) (names.first_named i h in_code top name.now) turns.old result turns.new }
{
    match first_name(alloc, program, here, in_code, top, name, turns) {
        Ok(step) => refer_path(alloc, program, here, step, Outer::Scopes, name, turns),
        Err(failure) => Err(failure),
    }
}

/// The ancestors that were asked for are searched for a name.
#[tactic(auto, using(crate::proofs::Going::other_settles))]
fn search_ancestors<P: Lookups>(
    alloc: Global,
    program: &P,
    here: &HereCode,
    outer: &Outer,
    name: &Text,
    value: &Value,
) -> Result<CPath, Failure>
    ensures { let i = P.index program.now in
        let members = spec.members_of value.now in
        Settles (names.after_ancestors i (here_of here.now) outer.now name.now members) result }
{
    let members = members(alloc, value)?;
    match search(alloc, program, name, &members) {
        Ok(Some(found)) => Ok(found),
        Ok(None) => fallback(alloc, program, here, outer, name),
        Err(failure) => Err(failure),
    }
}

/// Goes on with the value that was asked for.
pub fn answer<P: Lookups>(
    alloc: Global,
    program: &P,
    here: &HereCode,
    awaited: Awaited,
    value: Value,
    turns: &mut u32,
) -> Result<NameStep, Failure>
    ensures { let i = P.index program.now in
        let h = here_of here.now in
        NameGoes (names.awaited i h) (names.awaited i h awaited value) turns.old result turns.new }
{
    match awaited {
        Awaited::File(path, assigned) => ask_const(alloc, here, path, assigned, turns),
        Awaited::Const(path, assigned) => Ok(NameStep::Gives(FoundCode {
            path,
            value,
            assigned,
        })),
        Awaited::Ancestors(outer, name) => {
            match search_ancestors(alloc, program, here, &outer, &name, &value) {
                Ok(path) => refer(alloc, program, here, path, turns),
                Err(failure) => Err(failure),
            }
        }
    }
}
