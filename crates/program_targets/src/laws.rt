//! The laws of the requests that targets ask for, each as the contract of a function that does nothing.
ghost use Rattle.std.specs.Prelude.{◌≢◌, ℕ, AllPairs, List};
ghost use Rattle.http_front_request.specs.Form.{each_once};
ghost use Rattle.http_front_request.specs.Request.{request_of};
ghost use Rattle.program_facts.specs.Generations.{IsWellFormed};

/// A name that is given twice is one parameter.
pub fn forms_name_each_parameter_once()
    ensures { (pairs : List (List ℕ × List ℕ)) → AllPairs (λ p q. p.0 ≢ q.0) (each_once pairs) }
{}

/// The request of a target may begin.
pub fn targets_ask_for_requests_that_may_begin()
    ensures { (target : List ℕ) → IsWellFormed (request_of target) }
{}
