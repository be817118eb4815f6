//! The commands that end by themselves.
ghost use Rattle.std.specs.Prelude.{◌≡◌, ◌≢◌, ◌⊎◌, ◌==◌, IfSome, IfOk};
ghost use Rattle.outside.specs.Faults.{Counts};
ghost use Rattle.command_words.specs.Words.{IsCommandLine};
ghost use Rattle.top_calls.specs.Output.{code_of, IsOtherCommand, IsTreeRefused, Output, IsNotBuilt, IsFault, WritesOn};
ghost use Rattle.top_calls.specs.Answers.{IsReached, IsAfterReading, WritesAnswer, QuestionOutput};
ghost use Rattle.top_calls.specs.declared.outcome.Outcome.{Outcome as OutcomeValue};
ghost use Rattle.top_calls.specs.declared.outcome.Outcome.TheVariants.{FaultyWords};

use crate::answer::{Answer, Question, answer_to, not_built, question_of};
use crate::outcome::Outcome;
use command_words::parse_words;
use outside::{Delivery, Sink, Source, Tree, TreeAns, write_all};
use ruby_types::TextList;
use std::alloc::{AllocError, Global};

/// Writes an answer. Where there is no memory for one, nothing is written.
#[tactic(auto, using(crate::proofs::Outputs::reached_after_reading, crate::proofs::Outputs::no_write_fault, crate::proofs::Outputs::written_whole))]
fn write_answer<O: Sink>(answer: Result<Answer, AllocError>, out: &mut O) -> Outcome
    requires { IfOk answer (λ answer. IsReached answer.outcome) }
    ensures written { WritesAnswer answer result (O.written out.old) (O.written out.new) }
    ensures faults { Counts (code_of result == 4) (O.faults out.old) (O.faults out.new) }
    ensures own { IsAfterReading result }
{
    let Ok(Answer { bytes, outcome }) = answer else {
        return Outcome::Memory;
    };
    match write_all(out, bytes.as_bytes()) {
        Delivery::Whole => outcome,
        Delivery::Failed => Outcome::WriteFault,
    }
}

/// Answers the question on the files of the tree.
#[tactic(auto, using(crate::proofs::Outputs::answer_is_reached, crate::proofs::Outputs::no_tree_fault))]
fn ask<T: Tree, O: Sink>(
    alloc: Global,
    question: &Question<'_>,
    tree: &mut T,
    out: &mut O,
) -> Outcome
    ensures written { WritesOn (T.holds tree.new) (QuestionOutput question.now) result (O.written out.old)
        (O.written out.new) }
    ensures tree_faults { Counts (code_of result == 3) (T.faults tree.old) (T.faults tree.new) }
    ensures write_faults { Counts (code_of result == 4) (O.faults out.old) (O.faults out.new) }
    ensures not_faulty { result ≢ FaultyWords }
{
    match tree.read_all() {
        TreeAns::Read(snapshot) => write_answer(answer_to(alloc, question, &snapshot), out),
        TreeAns::Failed => Outcome::FilesUnread,
        TreeAns::Memory => Outcome::Memory,
    }
}

/// Runs a command that ends by itself, over an application's files, and tells how it ended. The script is not read yet.
pub fn run_once<S: Source, T: Tree, O: Sink>(
    alloc: Global,
    words: &TextList,
    script: &mut S,
    tree: &mut T,
    out: &mut O,
) -> Outcome
    ensures written { WritesOn (T.holds tree.new) (Output words.now) result (O.written out.old) (O.written out.new) }
    ensures silent { result ≡ FaultyWords → O.written out.new ≡ O.written out.old }
    ensures faulty { result ≡ FaultyWords → ¬ (IsCommandLine words.now) }
    ensures command { (result ≡ FaultyWords) ⊎ IsCommandLine words.now }
    ensures tree_faults { Counts (code_of result == 3) (T.faults tree.old) (T.faults tree.new) }
    ensures write_faults { Counts (code_of result == 4) (O.faults out.old) (O.faults out.new) }
    ensures unread { IsOtherCommand words.now → tree.new ≡ tree.old }
    ensures script { script.new ≡ script.old }
{
    let _ = script;
    let Some(command) = parse_words(words) else {
        return Outcome::FaultyWords;
    };
    match question_of(&command) {
        Ok(question) => ask(alloc, &question, tree, out),
        Err(what) => write_answer(not_built(alloc, what), out),
    }
}

/// The exit status of `run_once`:
///
/// - 0 done, 1 answered but negatively (a request whose reply is not 200);
/// - 2 the words are no command line;
/// - 3 the files could not be read, 4 the output could not be written, 5 want of memory;
/// - 6 the application is refused: it is beyond a limit, or its configuration or its names have a fault;
/// - 11 what was asked for is not built yet.
pub fn once_main<S: Source, T: Tree, O: Sink>(
    alloc: Global,
    words: &TextList,
    script: &mut S,
    tree: &mut T,
    out: &mut O,
) -> u8
    // The output and the status are those of the words on the files that the tree tells.
    ensures written { (outcome : OutcomeValue) × (result ≡ code_of outcome)
        × WritesOn (T.holds tree.new) (Output words.now) outcome (O.written out.old) (O.written out.new) }
    ensures silent { (result ≡ 2) ⊎ ((result ≡ 3) ⊎ (result ≡ 5)) → O.written out.new ≡ O.written out.old }

    // Each fault has its status, exactly where it comes.
    ensures faulty { result ≡ 2 → ¬ (IsCommandLine words.now) }
    ensures command { (result ≡ 2) ⊎ IsCommandLine words.now }
    ensures tree_faults { Counts (result == 3) (T.faults tree.old) (T.faults tree.new) }
    ensures write_faults { Counts (result == 4) (O.faults out.old) (O.faults out.new) }
    ensures refused { IfSome (T.holds tree.new) (λ files. result ≡ 6 → IsTreeRefused words.now files) }
    ensures refused_only { IfSome (T.holds tree.new) (λ files. IsTreeRefused words.now files → (result ≡ 6)
        ⊎ IsFault result) }
    ensures not_built { IfSome (T.holds tree.new) (λ files. result ≡ 11 → IsNotBuilt words.now files) }
    ensures not_built_only { IfSome (T.holds tree.new) (λ files. IsNotBuilt words.now files → (result ≡ 11)
        ⊎ IsFault result) }

    // What is not built yet is told by the words before the tree is read, where they tell it.
    ensures unread { IsOtherCommand words.now → tree.new ≡ tree.old }
    ensures script { script.new ≡ script.old }
{
    run_once(alloc, words, script, tree, out).code()
}
