//! What is read of the outcomes and texts of files, by their numbers.
ghost use Rattle.std.specs.Prelude.{◌≡◌, slice_get};
ghost use Rattle.std.specs.Option.{option_map};
ghost use Rattle.program_index.specs.Program as spec;
ghost use Rattle.program_outcomes.specs.Outcomes.{flat, fault_in, tasks_in};

use program_outcomes::{Outcome, Tasks};
use program_used::{FileText, UsedText};
use ruby_types::{FileTree, RubyError};

/// The outcome of the file of this number, if it is used.
pub fn outcome_at(outcomes: &[Option<Outcome>], file: u32) -> Option<&Outcome>
    ensures { option_map (λ outcome. outcome.now) result ≡ flat (slice_get outcomes.now file) }
{
    match outcomes.get(file as usize) {
        Some(Some(outcome)) => Some(outcome),
        _ => None,
    }
}

/// The fault of an outcome, if there is one.
pub fn fault_in(outcome: Option<&Outcome>) -> Option<&RubyError>
    ensures { option_map (λ fault. fault.now) result ≡ fault_in (option_map (λ o. o.now) outcome.entry) }
{
    match outcome {
        Some(outcome) => match &outcome.fault {
            Some(fault) => Some(fault),
            None => None,
        },
        None => None,
    }
}

/// The tasks of an outcome, and else these.
pub fn tasks_in<'a>(outcome: Option<&'a Outcome>, tasks: &'a Tasks) -> &'a Tasks
    ensures { result.now ≡ tasks_in (option_map (λ o. o.now) outcome.entry) tasks.now }
{
    match outcome {
        Some(outcome) => &outcome.tasks,
        None => tasks,
    }
}

/// The tree, where there is no fault.
pub fn unless<'a>(fault: Option<&RubyError>, tree: Option<&'a FileTree>) -> Option<&'a FileTree>
    ensures { option_map (λ t. t.now) result
        ≡ spec.unless (option_map (λ f. f.now) fault.entry) (option_map (λ t. t.now) tree.entry) }
{
    match fault {
        Some(_) => None,
        None => tree,
    }
}

fn tree_in(text: &FileText) -> Option<&FileTree>
    ensures { option_map (λ tree. tree.now) result ≡ spec.tree_in text.now }
{
    match text {
        FileText::Tree(tree) => Some(tree),
        FileText::Fault { .. } => None,
    }
}

/// The tree of the text of this number, if there is one.
pub fn tree_at(texts: &[Option<UsedText>], file: u32) -> Option<&FileTree>
    ensures { option_map (λ tree. tree.now) result ≡ spec.tree_by (slice_get texts.now file) }
{
    match texts.get(file as usize) {
        Some(Some(used)) => tree_in(&used.text),
        _ => None,
    }
}
