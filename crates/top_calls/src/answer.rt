//! What a command answers on an application's files.
ghost use Rattle.std.specs.Prelude.{◌≡◌, ℕ, List, Some, false, IfOk};
ghost use Rattle.tree_report.specs.Limits.{IsWithinLimits};
ghost use Rattle.command_words.specs.Command.{Spells};
ghost use Rattle.http_front_response.specs.Response.{HasReason, response_bytes};
ghost use Rattle.top_calls.specs.Output.{generation_of, outcome_of, not_built_line, GetAnswer, TreeAnswer};
ghost use Rattle.top_calls.specs.Answers.{Asks, IsAnswer};
ghost use Rattle.top_calls.specs.declared.outcome.Outcome.TheVariants.{NotBuilt};

use crate::outcome::{Outcome, Unbuilt};
use crate::target::{Target, first_target};
use command_words::Command;
use http_front_response::print_response;
use load_rules::{FirstRefusal, first_reply};
use outside::{FileEntry, Snapshot};
use ruby_types::{Reply, Text};
use std::alloc::{AllocError, Global};
use tree_command::{ListingFault, list_tree};
use tree_report::is_within_limits;

/// What a command asks of the application's files.
#[derive(Clone, Copy)]
pub enum Question<'a> {
    /// The reply to a request.
    Reply(Target<'a>),
    /// The list of the constants.
    Listing,
}

/// The bytes that a command writes, and how it ends where they are written.
#[derive(Drop)]
pub struct Answer {
    pub bytes: Text,
    pub outcome: Outcome,
}

/// The question that the command asks, or that it is not built yet.
#[tactic(auto, using(crate::proofs::Commands::asks_reply, crate::proofs::Commands::asks_other_target, crate::proofs::Commands::asks_nothing))]
pub fn question_of<'a>(command: &Command<'a>) -> Result<Question<'a>, Unbuilt>
    ensures { (words : List (List ℕ)) → Spells command.now words → Asks words result }
{
    match command {
        Command::Get(target) => match first_target(target) {
            Some(target) => Ok(Question::Reply(target)),
            None => Err(Unbuilt::Target),
        },
        Command::Tree => Ok(Question::Listing),
        _ => Err(Unbuilt::Command),
    }
}

/// The answer to what is not built yet.
pub fn not_built(alloc: Global, what: Unbuilt) -> Result<Answer, AllocError>
    ensures { IfOk result (λ answer. (answer.bytes ≡ not_built_line) × (answer.outcome ≡ NotBuilt what)) }
{
    Ok(Answer {
        bytes: Text::from_bytes(alloc, b"not built yet\n")?,
        outcome: Outcome::NotBuilt(what),
    })
}

/// How a request with this reply ends.
fn outcome_of(reply: &Reply) -> Outcome
    ensures { result ≡ outcome_of reply.now }
{
    if reply.status == 200 {
        Outcome::Done
    } else {
        Outcome::Negative
    }
}

/// The number of the generation that these files make: 0 for none, else that of the first reload.
fn generation(files: &[FileEntry]) -> u32
    ensures { result ≡ generation_of files.now }
{
    match files {
        [] => 0,
        _ => 1,
    }
}

/// The answer with this reply.
fn replied(alloc: Global, reply: &Reply, files: &[FileEntry]) -> Result<Answer, AllocError>
    requires { HasReason reply.now.status }
    ensures { IfOk result (λ answer.
        (answer.bytes ≡ response_bytes reply.now (Some (generation_of files.now)) false false)
        × (answer.outcome ≡ outcome_of reply.now)) }
{
    Ok(Answer {
        bytes: print_response(alloc, reply, Some(generation(files)), false, false)?,
        outcome: outcome_of(reply),
    })
}

/// The answer to a request on files within the limits.
#[tactic(auto, using(crate::proofs::Outputs::known_status, tree_report::proofs::LimitLaws::small_files))]
fn answer_within(
    alloc: Global,
    target: &Target<'_>,
    snapshot: &Snapshot,
) -> Result<Answer, AllocError>
    requires { IsWithinLimits snapshot.now.files }
    ensures { IfOk result (λ answer. GetAnswer snapshot.now.files target.now.controller.now target.now.action.now
        answer.bytes answer.outcome) }
{
    match first_reply(alloc, snapshot, target.controller, target.action) {
        Ok(reply) => replied(alloc, &reply, snapshot.files.as_slice()),
        Err(FirstRefusal::NotBuilt(path)) => not_built(alloc, Unbuilt::File(path)),
        Err(FirstRefusal::Memory) => Err(AllocError),
    }
}

/// The answer to a request.
fn answer_request(
    alloc: Global,
    target: &Target<'_>,
    snapshot: &Snapshot,
) -> Result<Answer, AllocError>
    ensures { IfOk result (λ answer. GetAnswer snapshot.now.files target.now.controller.now target.now.action.now
        answer.bytes answer.outcome) }
{
    if is_within_limits(snapshot.files.as_slice()) {
        answer_within(alloc, target, snapshot)
    } else {
        not_built(alloc, Unbuilt::Size)
    }
}

/// The constants and their files, or the line that says why the application is refused.
fn answer_listing(alloc: Global, snapshot: &Snapshot) -> Result<Answer, AllocError>
    ensures { IfOk result (λ answer. TreeAnswer snapshot.now.files answer.bytes answer.outcome) }
{
    match list_tree(alloc, snapshot) {
        Ok(bytes) => Ok(Answer {
            bytes: Text::from_vec(alloc, bytes)?,
            outcome: Outcome::Done,
        }),
        Err(ListingFault::Refused(refusal)) => {
            let line = refusal.line(alloc)?;
            Ok(Answer {
                bytes: Text::from_vec(alloc, line)?,
                outcome: Outcome::Refused,
            })
        }
        Err(ListingFault::Memory) => Err(AllocError),
    }
}

/// The answer to the question on an application's files.
pub fn answer_to(
    alloc: Global,
    question: &Question<'_>,
    snapshot: &Snapshot,
) -> Result<Answer, AllocError>
    ensures { IfOk result (IsAnswer question.now snapshot.now.files) }
{
    match question {
        Question::Reply(target) => answer_request(alloc, target, snapshot),
        Question::Listing => answer_listing(alloc, snapshot),
    }
}
