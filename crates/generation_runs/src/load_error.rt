ghost use Rattle.std.specs.Prelude.{◌≡◌, IfOk};
ghost use Rattle.by_need_loader.specs.Failures.{cause};
ghost use Rattle.program_requests.specs.Requests.{failed_reply};
ghost use Rattle.program_theory.specs.Replies as spec;

use by_need_loader::Failure;
use load_replies::blame_error;
use ruby_builtin_base::error_text;
use ruby_runs::NoReply;
use ruby_types::{Reply, RubyError, Task};
use std::alloc::{AllocError, Global};
use std::marker::Model;

/// The error that a task's blame is told as. Contracts see the error alone.
#[derive(Drop)]
pub struct LoadError {
    alloc: Global,
    error: RubyError,
}

impl Model for LoadError {
    ghost use Rattle.std.specs.Coded.{codes};
    ghost use Rattle.ruby_types.specs.declared.request.RubyError.{RubyError};
    ghost use Rattle.ruby_types.specs.contracts.request.RubyError as told;

    ghost Value = { RubyError };

    ghost coded = { Prim.hlevel (codes, told.the_row.coded) };

    ghost view = { λ failed. failed.error };
}

impl LoadError {
    /// The error of a load that failed.
    pub fn of(
        alloc: Global,
        failure: Failure<Task, RubyError, NoReply>,
    ) -> Result<LoadError, AllocError>
        ensures { IfOk result (λ error. error ≡ spec.blame_error (cause failure)) }
    {
        let error = blame_error(alloc, failure)?;
        Ok(LoadError { alloc, error })
    }

    /// The reply of a request that asked for the task.
    pub fn reply(self) -> Result<Reply, AllocError>
        ensures { IfOk result (λ reply. reply ≡ failed_reply self) }
    {
        Ok(Reply {
            status: 500,
            body: error_text(self.alloc, &self.error)?,
        })
    }
}
