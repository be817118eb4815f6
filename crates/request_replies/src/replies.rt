ghost use Rattle.std.specs.Prelude.{◌≡◌, IfOk};
ghost use Rattle.by_need.specs.Rounds.{Part, known};
ghost use Rattle.by_need_loader.specs.Gained.{GainsFor};
ghost use Rattle.load_table.specs.Tables.{value_in};
ghost use Rattle.program_theory.specs.Applications.{Application, rules_of};
ghost use Rattle.program_theory.specs.Replies.{reply_of};
ghost use Rattle.request_replies.specs.Runs.{IsRunOf, asked_by};

use by_need_answer::answer_run;
use by_need_loader::Program;
use load_table::Table;
use ruby_runs::NoReply;
use ruby_types::{Reply, Request, RubyError, Task, Value};
use std::alloc::{AllocError, Global};

/// The reply to a request of which this is the run, over a table that is part of what is known. What it asks for is
/// loaded into the table, which gains only what these tasks need. An error where memory runs out.
pub fn reply_to<Y: Program<Task = Task, Value = Value, Error = RubyError, Other = NoReply>>(
    alloc: Global,
    program: &Y,
    table: &mut Table,
    request: &Request,
    running: Y::Running,
) -> Result<Reply, AllocError>
    requires run { (app : Application)
        × IsRunOf app request.now (Y.rules program.now) ((Y.runs program.now).rest running) }
    requires part { Part (value_in table.old) (known (Y.rules program.now)) }
    ensures reply { IfOk result (λ reply. (app : Application) →
        IsRunOf app request.now (Y.rules program.now) ((Y.runs program.now).rest running) →
        reply ≡ reply_of app request.now) }
    ensures part { Part (value_in table.new) (known (Y.rules program.now)) }
    ensures gains { (app : Application) →
        IsRunOf app request.now (Y.rules program.now) ((Y.runs program.now).rest running) →
        GainsFor (rules_of app) (asked_by app request.now) (value_in table.old) (value_in table.new) }
{
    let answered = answer_run(alloc, program, table, running)?;
    load_replies::reply_of(alloc, request, answered)
}
