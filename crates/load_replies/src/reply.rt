ghost use Rattle.std.specs.Prelude.{◌≡◌, ◌∷◌, ◌++◌, ℕ, List, IfOk, OnOk};
ghost use Rattle.by_need.specs.Asking.{Computation, over};
ghost use Rattle.by_need.specs.Rounds.{known};
ghost use Rattle.by_need_answer.specs.Answers.{Answers};
ghost use Rattle.ruby_builtin_base.specs.Printed as printed;
ghost use Rattle.ruby_runs.specs.declared.NoReply.{NoReply as NoReplyValue};
ghost use Rattle.ruby_types.specs.declared.request.RubyError.{RubyError as ErrorValue};
ghost use Rattle.ruby_types.specs.declared.request.Task.{Task as TaskValue};
ghost use Rattle.ruby_types.specs.declared.value.Value.{Value as ValueValue};
ghost use Rattle.program_theory.specs.Applications.{Application, rules_of};
ghost use Rattle.program_theory.specs.Replies as spec;

use crate::blame::blame_error;
use by_need_answer::Answered;
use plain_text::push_path;
use ruby_builtin_base::{error_text, to_s};
use ruby_runs::NoReply;
use ruby_types::{Reply, Request, RubyError, Task, Text, TextList, Value};
use std::alloc::{AllocError, Global};

fn push_no_reply(written: &mut Vec<u8>, action: &Text, end: &NoReply) -> Result<(), AllocError>
    ensures { OnOk result ((segment : List ℕ) (segments : List (List ℕ)) →
        written.new.items ≡ written.old.items ++ spec.no_reply_text (segment ∷ segments) action.now end.now) }
{
    match end {
        NoReply::NoController(path) => {
            written.extend_from_slice(b"no controller ")?;
            push_path(written, path)?;
            Ok(())
        }
        NoReply::NoAction(path) => {
            written.extend_from_slice(b"no action ")?;
            written.extend_from_slice(action.as_bytes())?;
            written.extend_from_slice(b" in ")?;
            push_path(written, path)?;
            Ok(())
        }
    }
}

/// What a request without a reply of its own is told.
fn no_reply_text(
    alloc: Global,
    controller: &TextList,
    action: &Text,
    end: &NoReply,
) -> Result<Text, AllocError>
    ensures { IfOk result (λ text. text ≡ spec.no_reply_text controller.now action.now end.now) }
{
    match controller.as_slice() {
        [] => Text::from_bytes(alloc, b"no route"),
        [_segment, _segments @ ..] => {
            let mut written = Vec::new(alloc);
            push_no_reply(&mut written, action, end)?;
            Text::from_vec(alloc, written)
        }
    }
}

fn failed(alloc: Global, error: &RubyError) -> Result<Reply, AllocError>
    ensures { IfOk result (λ reply. reply ≡ spec.replied 500 (printed.error_text error.now)) }
{
    Ok(Reply {
        status: 500,
        body: error_text(alloc, error)?,
    })
}

/// The reply to a request by what its run comes to: 200 with the value's `to_s`; 404 where there is no route, no
/// controller or no action; 500 with the error, or with the one that the blame is told as. An error where memory runs
/// out.
pub fn reply_of(
    alloc: Global,
    request: &Request,
    answered: Answered<Task, Value, RubyError, NoReply>,
) -> Result<Reply, AllocError>
    ensures { IfOk result (λ reply. (app : Application)
        (run : Computation TaskValue ValueValue ErrorValue NoReplyValue) →
        ((value : ValueValue) → app.rows.to_s value ≡ printed.to_s value) → Answers (rules_of app) run answered →
        reply ≡ spec.reply_by app request.now (over (known (rules_of app)) run).answer) }
{
    match answered {
        Answered::Done(value) => Ok(Reply {
            status: 200,
            body: to_s(alloc, &value)?,
        }),
        Answered::Raised(error) => failed(alloc, &error),
        Answered::Blamed(failure) => failed(alloc, &blame_error(alloc, failure)?),
        Answered::Otherwise(end) => Ok(Reply {
            status: 404,
            body: no_reply_text(alloc, &request.controller, &request.action, &end)?,
        }),
    }
}
