//! The laws of requests, each as the contract of a function that does nothing.
ghost use Rattle.std.specs.Prelude.{◌≡◌};
ghost use Rattle.by_need.specs.Asking.{Asks};
ghost use Rattle.by_need.specs.Rounds.{known};
ghost use Rattle.ruby_types.specs.declared.request.Request.{Request};
ghost use Rattle.ruby_types.specs.declared.request.Task.{Task};
ghost use Rattle.ruby_types.specs.declared.request.Task.TheVariants as task;
ghost use Rattle.program_theory.specs.Applications.{Application, rules_of};
ghost use Rattle.program_theory.specs.Replies.{reply_of};
ghost use Rattle.program_facts.specs.Generations.{asked_by};
ghost use Rattle.request_actor.specs.Talks.{asked_over, reply_over};
ghost use Rattle.program_requests.specs.Requests.{failed_reply, request_run, unknown_for};

/// What a request asks for, over all that is known, is what its run asks for.
pub fn requests_ask_as_they_run()
    ensures { (app : Application) (request : Request) →
        asked_by app (task.Request request) ≡ asked_over (known (rules_of app)) (request_run app request) }
{}

/// A request's reply is that of its run over all that is known, where a task that stays unknown ends it with the error
/// that the task's blame is told as.
pub fn replies_are_those_of_runs()
    ensures { (app : Application) (request : Request) →
        reply_of app request ≡ reply_over (known (rules_of app)) (λ t. failed_reply (unknown_for app t))
        (request_run app request) }
{}

/// A request that waits for a task over all that is known is answered as one whose load of this task failed.
pub fn loads_fail_with_the_blame()
    ensures { (app : Application) (request : Request) (t : Task) →
        ((rules_of app).run (task.Request request) (known (rules_of app))).answer ≡ Asks t →
        reply_of app request ≡ failed_reply (unknown_for app t) }
{}
