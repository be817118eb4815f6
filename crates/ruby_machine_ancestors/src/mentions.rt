ghost use Rattle.std.specs.Prelude.{◌≡◌, ◌∷◌, [], ℕ, IfOk, List, Ok};
ghost use Rattle.program_lookups.specs.Codes.{mention_of};
ghost use Rattle.program_places.specs.Paths.{Path};
ghost use Rattle.ruby_runs.specs.Doing.{Doing, fail};
ghost use Rattle.ruby_runs.specs.Names as names;
ghost use Rattle.ruby_runs.specs.Names.{Found};
ghost use Rattle.ruby_runs.specs.Runs as runs;
ghost use Rattle.ruby_runs.specs.Runs.{run_limits};
ghost use Rattle.ruby_types.specs.declared.request.ErrorClass.TheVariants as class;
ghost use Rattle.ruby_machine_names.specs.Names.{found_of, later};
ghost use Rattle.ruby_machine_names.specs.Profile.{profile};
ghost use Rattle.ruby_machine_names.specs.Steps.{Ends, WholeGoes, here_of};
ghost use Rattle.ruby_machine_ancestors.specs.declared.mentions.Role.{Role};
ghost use Rattle.ruby_machine_files.specs.Files.{file_alone};
ghost use Rattle.ruby_machine_ancestors.specs.Ancestors.{MentionGoes, found_judged, judged, mentioned, waited};

use lists::{Copying, Listed};
use program_lookups::{Lookups, MentionCode, Scopes};
use ruby_machine_files::file_here;
use ruby_machine_names::{
    Failure, FoundCode, HereCode, NameWait, Resolving, asks_ancestors, is_class, members, resolve,
    resume, spend,
};
use ruby_types::{CPath, ErrorClass, Task, Text, Value};
use std::alloc::{AllocError, Global};

/// Constant paths.
pub type CPaths = Listed<CPath>;

/// What a constant is behind `class X <`, or behind `include`.
#[derive(Clone, Copy, Drop)]
pub enum Role {
    Parent,
    Included,
}

/// What a mention waits for.
#[derive(Drop)]
pub enum Awaits {
    /// Its constant is resolved where its text stands.
    Constant(HereCode, NameWait),
    Ancestors,
}

/// What a mention comes to: the ancestors of what it names, or a question.
#[derive(Drop)]
pub enum MentionStep {
    Members(CPaths),
    Asks(Task, Awaits),
}

/// Stops a mention with an error of its file.
fn refuse(alloc: Global, file: &Text, message: &[u8]) -> Failure
    ensures { Ends (fail {A = List Path} (file_alone file.now) class.Kind message.now) result }
{
    match (
        file_here(file, Scopes::new(alloc)),
        Text::from_bytes(alloc, message),
    ) {
        (Ok(here), Ok(message)) => here.error(alloc, ErrorClass::Kind, message),
        _ => Failure::Memory,
    }
}

fn alone(alloc: Global, path: CPath) -> Result<CPaths, AllocError>
    ensures { IfOk result (λ paths. paths ≡ path ∷ []) }
{
    let mut paths = CPaths::new(alloc);
    paths.push(path)?;
    Ok(paths)
}

/// The ancestors of a parent or an included module, which are asked for where its file opens it.
fn ancestors<P: Lookups>(
    alloc: Global,
    program: &P,
    file: &Text,
    path: CPath,
    turns: &mut u32,
) -> Result<MentionStep, Failure>
    ensures { let i = P.index program.now in
        (role : Role) → MentionGoes (waited i file.now role) (names.ancestors i profile (file_alone file.now) path)
        turns.old result turns.new }
{
    if !asks_ancestors(program, &path) {
        return Ok(MentionStep::Members(alone(alloc, path)?));
    }
    if !spend(turns) {
        return Err(file_here(file, Scopes::new(alloc))?.spent(alloc));
    }
    Ok(MentionStep::Asks(Task::Ancestors(path), Awaits::Ancestors))
}

/// An assigned constant is no module, nor is a class.
fn is_no_module<P: Lookups>(program: &P, found: &FoundCode) -> bool
    ensures { result ≡ runs.is_no_module (P.index program.now) profile run_limits (found_of found.now) }
{
    found.assigned || is_class(program, &found.path)
}

/// Judges what a mention names, and asks for its ancestors.
fn judge<P: Lookups>(
    alloc: Global,
    program: &P,
    file: &Text,
    role: Role,
    found: FoundCode,
    turns: &mut u32,
) -> Result<MentionStep, Failure>
    ensures { let i = P.index program.now in
        MentionGoes (waited i file.now role) (judged i file.now role (found_of found)) turns.old result turns.new }
{
    match role {
        Role::Parent => {
            if is_class(program, &found.path) {
                ancestors(alloc, program, file, found.path, turns)
            } else {
                Err(refuse(alloc, file, b"superclass must be a Class"))
            }
        }
        Role::Included => {
            if is_no_module(program, &found) {
                Err(refuse(alloc, file, b"wrong argument type Class (expected module)"))
            } else {
                ancestors(alloc, program, file, found.path, turns)
            }
        }
    }
}

/// Goes on with a constant that was resolved so far.
fn go_on<P: Lookups>(
    alloc: Global,
    program: &P,
    file: &Text,
    role: Role,
    here: HereCode,
    resolving: Resolving,
    turns: &mut u32,
) -> Result<MentionStep, Failure>
    ensures { let i = P.index program.now in
        (d : Doing Found) (old : ℕ) → WholeGoes (later i (here_of here)) d old (Ok resolving) turns.old →
        MentionGoes (waited i file.now role) (found_judged i file.now role d) old result turns.new }
{
    match resolving {
        Resolving::Found(found) => judge(alloc, program, file, role, found, turns),
        Resolving::Asks(task, wait) => Ok(MentionStep::Asks(task, Awaits::Constant(here, wait))),
    }
}

/// A mention: its constant is resolved, judged, and its ancestors are asked for.
pub fn mention<P: Lookups>(
    alloc: Global,
    program: &P,
    file: &Text,
    role: Role,
    mention: &MentionCode,
    turns: &mut u32,
) -> Result<MentionStep, Failure>
    ensures { let i = P.index program.now in
        MentionGoes (waited i file.now role) (mentioned i file.now role (mention_of mention.now)) turns.old result
        turns.new }
{
    let here = file_here(file, mention.scopes.copy()?)?;
    match resolve(alloc, program, &here, false, &mention.constant, turns) {
        Ok(resolving) => go_on(alloc, program, file, role, here, resolving, turns),
        Err(failure) => Err(failure),
    }
}

/// A mention goes on with the value that it waits for.
pub fn answer<P: Lookups>(
    alloc: Global,
    program: &P,
    file: &Text,
    role: Role,
    awaits: Awaits,
    value: Value,
    turns: &mut u32,
) -> Result<MentionStep, Failure>
    ensures { let i = P.index program.now in
        MentionGoes (waited i file.now role) (waited i file.now role awaits value) turns.old result turns.new }
{
    match awaits {
        Awaits::Ancestors => Ok(MentionStep::Members(CPaths::from_vec(members(alloc, &value)?))),
        Awaits::Constant(here, wait) => match resume(alloc, program, &here, wait, value, turns) {
            Ok(resolving) => go_on(alloc, program, file, role, here, resolving, turns),
            Err(failure) => Err(failure),
        },
    }
}
