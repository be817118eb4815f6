//! What commands ask of an application's files, and what is answered.
ghost use Rattle.std.specs.Prelude.{◌≡◌, ◌<◌, ◌≤◌, ℕ, List, length, IfOk};
ghost use Rattle.command_words.specs.Command.{Spells};
ghost use Rattle.http_front_request.specs.Request.{longest_target, request_of};
ghost use Rattle.outside.specs.declared.files.FileEntry.{FileEntry as EntryValue};
ghost use Rattle.command_runs.specs.Asked.{IsGet};
ghost use Rattle.command_runs.specs.Output.{EndsOn, IsWanted, not_built_line, too_long_bytes};
ghost use Rattle.command_runs.specs.declared.answer.Question.{Question as QuestionValue};
ghost use Rattle.command_runs.specs.declared.outcome.Outcome.{Outcome as OutcomeValue};
ghost use Rattle.command_runs.specs.declared.outcome.Outcome.TheVariants as outcome;

use crate::outcome::Outcome;
use command_words::Command;
use http_front_request::{LONGEST_TARGET, request_of};
use http_front_response::{Notice, print_response};
use outside::Snapshot;
use ruby_types::{Request, Text};
use std::alloc::{AllocError, Global};

/// What a command asks of the application's files.
#[derive(Drop)]
pub enum Question {
    /// The reply to a request.
    Reply(Request),
    /// What comes of loading the files: of those of the plan alone, or of all.
    Check(bool),
    /// The list of the constants.
    Listing,
}

/// The bytes that a command writes, and how it ends where they are written.
#[derive(Drop)]
pub struct Answer {
    pub bytes: Text,
    pub outcome: Outcome,
}

/// What a command asks, or its answer where no file decides it.
#[derive(Drop)]
pub enum Wanted {
    OnFiles(Question),
    Known(Answer),
}

/// What answers questions on an application's files.
pub trait Answers {
    /// The answer to a question on files: its bytes, and how it ends.
    ghost is_answer: { QuestionValue → List EntryValue → List ℕ → OutcomeValue → Type 0 };

    /// An answer ends as refused exactly where the files are.
    ghost ends: { (question : QuestionValue) (files : List EntryValue) (output : List ℕ) (own : OutcomeValue) →
        is_answer question files output own → EndsOn files own };

    fn answer_to(
        alloc: Global,
        question: Question,
        snapshot: Snapshot,
    ) -> Result<Answer, AllocError>
        ensures { IfOk result (λ answer. is_answer question snapshot.files answer.bytes answer.outcome) };
}

/// The answer to a command that is not built yet.
fn not_built(alloc: Global) -> Result<Answer, AllocError>
    ensures { IfOk result (λ answer. (answer.bytes ≡ not_built_line) × (answer.outcome ≡ outcome.NotBuilt)) }
{
    Ok(Answer {
        bytes: Text::from_bytes(alloc, b"not built yet\n")?,
        outcome: Outcome::NotBuilt,
    })
}

/// The answer to a request whose target is too long.
fn too_long(alloc: Global) -> Result<Answer, AllocError>
    ensures { IfOk result (λ answer. (answer.bytes ≡ too_long_bytes) × (answer.outcome ≡ outcome.Negative)) }
{
    let reply = Notice::Target.reply(alloc)?;
    Ok(Answer {
        bytes: print_response(alloc, &reply, Some(0), false, false)?,
        outcome: Outcome::Negative,
    })
}

/// The request of a target that isn't too long.
fn read_request(alloc: Global, target: &[u8]) -> Result<Request, AllocError>
    requires { length target.now ≤ longest_target }
    ensures { IfOk result (λ request. request ≡ request_of target.now) }
{
    match request_of(alloc, target) {
        Ok(request) => Ok(request),
        Err(_) => Err(AllocError),
    }
}

fn wanted_of_target(alloc: Global, target: &[u8]) -> Result<Wanted, AllocError>
    ensures { IfOk result (λ wanted. (words : List (List ℕ)) → IsGet words target.now → IsWanted words wanted) }
{
    if target.len() > LONGEST_TARGET {
        Ok(Wanted::Known(too_long(alloc)?))
    } else {
        Ok(Wanted::OnFiles(Question::Reply(read_request(alloc, target)?)))
    }
}

/// What a command asks of the files, or its answer where no file decides it. An error where memory runs out.
pub fn wanted_of(alloc: Global, command: &Command<'_>) -> Result<Wanted, AllocError>
    ensures { IfOk result (λ wanted. (words : List (List ℕ)) → Spells command.now words → IsWanted words wanted) }
{
    match command {
        Command::Get(target) => wanted_of_target(alloc, target),
        Command::Check => Ok(Wanted::OnFiles(Question::Check(false))),
        Command::CheckEager => Ok(Wanted::OnFiles(Question::Check(true))),
        Command::Tree => Ok(Wanted::OnFiles(Question::Listing)),
        Command::Replay => Ok(Wanted::Known(not_built(alloc)?)),
        Command::Demo(_) => Ok(Wanted::Known(not_built(alloc)?)),
        Command::Serve { .. } => Ok(Wanted::Known(not_built(alloc)?)),
    }
}
