ghost use Rattle.std.specs.Prelude.{◌≡◌, ◌≢◌, ◌⊎◌, ◌==◌, IfSome, IfOk};
ghost use Rattle.outside.specs.Faults.{Counts};
ghost use Rattle.command_words.specs.Words.{IsCommandLine};
ghost use Rattle.command_runs.specs.Asked.{IsAsked, IsLater, IsTooLong};
ghost use Rattle.command_runs.specs.Output.{AreRefused, IsAfterReading, IsFault, IsReached, Output, WritesAnswer};
ghost use Rattle.command_runs.specs.Output.{WritesOn, code_of};
ghost use Rattle.command_runs.specs.declared.outcome.Outcome.TheVariants.{FaultyWords};

use crate::answer::{Answer, Answers, Question, Wanted, wanted_of};
use crate::outcome::Outcome;
use command_words::parse_words;
use outside::{Delivery, Sink, Tree, TreeAns, write_all};
use ruby_types::TextList;
use std::alloc::{AllocError, Global};

/// Writes an answer. Where there is no memory for one, nothing is written.
#[tactic(auto, using(crate::proofs::Ends::reached_after_reading, crate::proofs::Ends::no_write_fault, crate::proofs::Ends::written_whole))]
fn write_answer<O: Sink>(answer: Result<Answer, AllocError>, out: &mut O) -> Outcome
    requires { IfOk answer (λ answer. IsReached answer.outcome) }
    ensures written { WritesAnswer answer result (O.written out.old) (O.written out.new) }
    ensures faults { Counts (code_of result == 4) (O.faults out.old) (O.faults out.new) }
    ensures own { IsAfterReading result }
{
    let Ok(Answer { bytes, outcome }) = answer else {
        return Outcome::Memory;
    };
    match write_all(out, bytes.as_bytes()) {
        Delivery::Whole => outcome,
        Delivery::Failed => Outcome::WriteFault,
    }
}

/// Answers the question on the files of the tree.
#[tactic(auto, using(crate::proofs::Ends::no_tree_fault))]
fn ask<A: Answers, T: Tree, O: Sink>(
    alloc: Global,
    question: Question,
    tree: &mut T,
    out: &mut O,
) -> Outcome
    ensures written { WritesOn (T.holds tree.new) (A.is_answer question) result (O.written out.old)
        (O.written out.new) }
    ensures tree_faults { Counts (code_of result == 3) (T.faults tree.old) (T.faults tree.new) }
    ensures write_faults { Counts (code_of result == 4) (O.faults out.old) (O.faults out.new) }
    ensures not_faulty { result ≢ FaultyWords }
{
    match tree.read_all() {
        TreeAns::Read(snapshot) => write_answer(A::answer_to(alloc, question, snapshot), out),
        TreeAns::Failed => Outcome::FilesUnread,
        TreeAns::Memory => Outcome::Memory,
    }
}

/// Runs a command line.
fn run_words<A: Answers, T: Tree, O: Sink>(
    alloc: Global,
    words: &TextList,
    tree: &mut T,
    out: &mut O,
) -> Outcome
    ensures written { WritesOn (T.holds tree.new) (Output A.is_answer words.now) result (O.written out.old)
        (O.written out.new) }
    ensures silent { result ≡ FaultyWords → O.written out.new ≡ O.written out.old }
    ensures faulty { result ≡ FaultyWords → ¬ (IsCommandLine words.now) }
    ensures command { (result ≡ FaultyWords) ⊎ IsCommandLine words.now }
    ensures tree_faults { Counts (code_of result == 3) (T.faults tree.old) (T.faults tree.new) }
    ensures write_faults { Counts (code_of result == 4) (O.faults out.old) (O.faults out.new) }
    ensures unread { IsLater words.now ⊎ IsTooLong words.now → tree.new ≡ tree.old }
{
    let Some(command) = parse_words(words) else {
        return Outcome::FaultyWords;
    };
    match wanted_of(alloc, &command) {
        Ok(Wanted::OnFiles(question)) => ask::<A, T, O>(alloc, question, tree, out),
        Ok(Wanted::Known(answer)) => write_answer(Ok(answer), out),
        Err(AllocError) => Outcome::Memory,
    }
}

/// Runs a command line over an application's files, with what answers questions on them, and tells how it ended.
pub fn run_command_line<A: Answers, T: Tree, O: Sink>(
    alloc: Global,
    words: &TextList,
    tree: &mut T,
    out: &mut O,
) -> Outcome
    ensures written { WritesOn (T.holds tree.new) (Output A.is_answer words.now) result (O.written out.old)
        (O.written out.new) }
    ensures silent { result ≡ FaultyWords → O.written out.new ≡ O.written out.old }
    ensures faulty { result ≡ FaultyWords → ¬ (IsCommandLine words.now) }
    ensures command { (result ≡ FaultyWords) ⊎ IsCommandLine words.now }
    ensures tree_faults { Counts (code_of result == 3) (T.faults tree.old) (T.faults tree.new) }
    ensures write_faults { Counts (code_of result == 4) (O.faults out.old) (O.faults out.new) }
    ensures refused { IfSome (T.holds tree.new) (λ files. code_of result ≡ 6 → IsAsked words.now × AreRefused files) }
    ensures refused_only { IfSome (T.holds tree.new) (λ files. IsAsked words.now → AreRefused files →
        (code_of result ≡ 6) ⊎ IsFault (code_of result)) }
    ensures not_built { IfSome (T.holds tree.new) (λ files. code_of result ≡ 11 → IsLater words.now) }
    ensures not_built_only { IfSome (T.holds tree.new) (λ files. IsLater words.now →
        (code_of result ≡ 11) ⊎ IsFault (code_of result)) }
    ensures unread { IsLater words.now ⊎ IsTooLong words.now → tree.new ≡ tree.old }
{
    run_words::<A, T, O>(alloc, words, tree, out)
}
