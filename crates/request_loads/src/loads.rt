//! Matters whose tasks are loaded by need.
ghost use Rattle.std.specs.Prelude.{◌≡◌, IfOk};
ghost use Rattle.by_need.specs.Blame.{Cause, blame};
ghost use Rattle.by_need_loader.specs.Failures.{cause};
ghost use Rattle.load_sections.specs.Theories.{IsOfTheory};

use by_need::Theory;
use by_need_loader::{Failure, Program};
use request_actor::Requests;
use std::alloc::{AllocError, Global};

/// A matter whose tasks are loaded by need.
pub trait Loads: Requests {
    /// What a program's tasks are, and how they run.
    type Theory: Program<Task = Self::Task, Value = Self::Value>;

    // The theory of a program, and why a task stays unknown that has this blame.
    ghost theory_of: { Self.Program → Self.Theory };

    ghost reason: { Cause Self.Task Self.Theory.Error Self.Theory.Other → Self.Error };

    /// The theory of a program.
    fn theory(program: &Self::Program) -> &Self::Theory
        ensures { result.now ≡ theory_of program.now };

    /// Why a task stays unknown whose load failed so.
    fn unknown(
        alloc: Global,
        failure: Failure<
            Self::Task,
            <Self::Theory as Theory>::Error,
            <Self::Theory as Theory>::Other,
        >,
    ) -> Result<Self::Error, AllocError>
        ensures { IfOk result (λ error. error ≡ reason (cause failure)) };

    fn copy_value(value: &Self::Value) -> Result<Self::Value, AllocError>
        ensures { IfOk result (λ copied. copied ≡ value.now) };

    fn copy_request(request: &Self::Request) -> Result<Self::Request, AllocError>
        ensures { IfOk result (λ copied. copied ≡ request.now) };

    // The theory is the program's.
    ghost theory_fits: { (p : Self.Program) → IsOfTheory Self.facts p (Self.Theory.rules (theory_of p)) };

    // A task stays unknown for its blame.
    ghost blame_is_reason: { (p : Self.Program) (task : Self.Task) →
        Self.talks.blame p task ≡ reason (blame (Self.Theory.rules (theory_of p)) task) };
}
