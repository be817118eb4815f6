ghost use Rattle.std.specs.Prelude.{◌≡◌, ℕ, List, [], map, Ok};
ghost use Rattle.program_lookups.specs.Codes.{Opens, mention_of, opening_of};
ghost use Rattle.program_places.specs.Paths.{Path};
ghost use Rattle.ruby_runs.specs.Doing.{Doing};
ghost use Rattle.ruby_runs.specs.Runs.{ancestors_of, ancestors_run, run_limits};
ghost use Rattle.ruby_machine_names.specs.Profile.{profile};
ghost use Rattle.ruby_machine_files.specs.Files.{TaskGoes, finish};
ghost use Rattle.ruby_machine_ancestors.specs.Ancestors.{MentionGoes, goes_on, includes_at};
ghost use Rattle.ruby_machine_ancestors.specs.Ancestors.{waited, waits, with_members};

use crate::joining::join;
use crate::mentions::{Awaits, CPaths, MentionStep, Role, answer, mention};
use lists::{Copying, Listed};
use program_lookups::{Lookups, MentionCode, OpeningCode, Standing};
use ruby_machine_files::{TASK_TURNS, TaskStep};
use ruby_machine_names::{Failure, copy_error};
use ruby_types::{CPath, Task, Text, Value};
use std::alloc::Global;

/// The run of an ancestors' task: the path and the file of its class or module; the members of the parent and of the
/// includes so far; and the turns that are left.
#[derive(Drop)]
pub struct AncestorsRun {
    pub path: CPath,
    pub file: Text,
    pub parent: CPaths,
    pub includes: Listed<CPaths>,
    pub turns: u32,
}

/// A run that waits for a value: that of the parent, or of the next include.
#[derive(Drop)]
pub struct AncestorsWait {
    pub run: AncestorsRun,
    pub role: Role,
    pub awaits: Awaits,
}

/// Goes on with the includes that are left.
fn each_include<P: Lookups>(
    alloc: Global,
    program: &P,
    mut run: AncestorsRun,
    includes: &[MentionCode],
) -> Result<TaskStep<AncestorsWait>, Failure>
    requires { map mention_of includes.now ≡ includes_at (P.index program.now) run.path }
    ensures { TaskGoes (waits (P.index program.now)) (goes_on (P.index program.now) run) result }
{
    'includes: for at in run.includes.len()..includes.len() {
        let role = Role::Included;
        let next = match mention(
            alloc,
            program,
            &run.file,
            role,
            &includes[at],
            &mut run.turns,
        ) {
            Ok(next) => next,
            Err(failure) => return Err(failure),
        };
        match next {
            MentionStep::Members(members) => run.includes.push(members)?,
            MentionStep::Asks(task, awaits) => {
                return Ok(TaskStep::Asks(task, AncestorsWait { run, role, awaits }));
            }
        }
    }
    let value = join(alloc, &run.path, &run.parent, run.includes.as_slice())?;
    Ok(TaskStep::Done(value))
}

/// Goes on behind the members of the parent and of some includes.
fn go_on<P: Lookups>(
    alloc: Global,
    program: &P,
    run: AncestorsRun,
) -> Result<TaskStep<AncestorsWait>, Failure>
    ensures { TaskGoes (waits (P.index program.now)) (goes_on (P.index program.now) run) result }
{
    match program.place(&run.path) {
        Standing::Opened(_, opening) => {
            each_include(alloc, program, run, opening.includes.as_slice())
        }
        Standing::Missing
        | Standing::Implicit
        | Standing::Faulty(_, _)
        | Standing::Assigned(_, _, _) => each_include(alloc, program, run, &[]),
    }
}

/// Goes on with what the parent or the next include came to.
fn step<P: Lookups>(
    alloc: Global,
    program: &P,
    mut run: AncestorsRun,
    role: Role,
    step: MentionStep,
) -> Result<TaskStep<AncestorsWait>, Failure>
    ensures { let i = P.index program.now in
        (d : Doing (List Path)) (old : ℕ) → MentionGoes (waited i run.file role) d old (Ok step) run.turns →
        TaskGoes (waits i) (d old (with_members i run role)) result }
{
    match step {
        MentionStep::Members(members) => {
            match role {
                Role::Parent => run.parent = members,
                Role::Included => run.includes.push(members)?,
            }
            go_on(alloc, program, run)
        }
        MentionStep::Asks(task, awaits) => {
            Ok(TaskStep::Asks(task, AncestorsWait { run, role, awaits }))
        }
    }
}

/// Begins with the parent, where there is one.
fn begin_opened<P: Lookups>(
    alloc: Global,
    program: &P,
    mut run: AncestorsRun,
    opening: &OpeningCode,
) -> Result<TaskStep<AncestorsWait>, Failure>
    ensures { let i = P.index program.now in
        let opened = opening_of (i.place run.path) in
        Opens opening.now opened → run.parent ≡ [] → run.includes ≡ [] →
        TaskGoes (waits i) (ancestors_of i profile run_limits run.file run.path opened run.turns finish) result }
{
    match &opening.parent {
        None => go_on(alloc, program, run),
        Some(parent) => {
            let role = Role::Parent;
            match mention(alloc, program, &run.file, role, parent, &mut run.turns) {
                Ok(next) => step(alloc, program, run, role, next),
                Err(failure) => Err(failure),
            }
        }
    }
}

/// Begins the run of the ancestors' task of what stands at a path.
pub fn begin<P: Lookups>(
    alloc: Global,
    program: &P,
    path: &CPath,
) -> Result<TaskStep<AncestorsWait>, Failure>
    ensures { let i = P.index program.now in
        TaskGoes (waits i) (ancestors_run i profile run_limits path.now (i.place path.now) run_limits.task_turns finish)
        result }
{
    match program.place(path) {
        Standing::Missing | Standing::Implicit | Standing::Assigned(_, _, _) => {
            Ok(TaskStep::Done(Value::Nil))
        }
        Standing::Faulty(_, error) => Err(Failure::Raised(copy_error(error)?)),
        Standing::Opened(file, opening) => {
            let run = AncestorsRun {
                path: path.copy()?,
                file: file.copy()?,
                parent: CPaths::new(alloc),
                includes: Listed::new(alloc),
                turns: TASK_TURNS,
            };
            begin_opened(alloc, program, run, opening)
        }
    }
}

/// Goes on with the value that a run waits for.
pub fn resume<P: Lookups>(
    alloc: Global,
    program: &P,
    wait: AncestorsWait,
    value: Value,
) -> Result<TaskStep<AncestorsWait>, Failure>
    ensures { TaskGoes (waits (P.index program.now)) (waits (P.index program.now) wait value) result }
{
    let AncestorsWait {
        mut run,
        role,
        awaits,
    } = wait;
    match answer(
        alloc,
        program,
        &run.file,
        role,
        awaits,
        value,
        &mut run.turns,
    ) {
        Ok(next) => step(alloc, program, run, role, next),
        Err(failure) => Err(failure),
    }
}
