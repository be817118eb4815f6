//! The laws of applications of the profile, each as the contract of a function that does nothing.
ghost use Rattle.std.specs.Prelude.{◌≡◌, List, Option};
ghost use Rattle.by_need.specs.Asking.{Done, Raised, Asks, Otherwise, over};
ghost use Rattle.by_need.specs.Blame.{blame};
ghost use Rattle.by_need.specs.Rounds.{Part, known};
ghost use Rattle.ruby_builtin_base.specs.Printed.{error_text, inspect, to_s};
ghost use Rattle.ruby_types.specs.declared.request.Request.{Request};
ghost use Rattle.ruby_types.specs.declared.request.RubyError.{RubyError};
ghost use Rattle.ruby_types.specs.declared.request.Task.{Task};
ghost use Rattle.ruby_types.specs.declared.request.Task.TheVariants as task;
ghost use Rattle.ruby_types.specs.declared.value.Value.{Value};
ghost use Rattle.program_places.specs.Paths.{Name, Path};
ghost use Rattle.program_files.specs.Files.{UsedFile};
ghost use Rattle.ruby_runs.specs.Bodies.{Call};
ghost use Rattle.ruby_runs.specs.declared.NoReply.{NoReply};
ghost use Rattle.program_theory.specs.Applications.{index_in, rules_of};
ghost use Rattle.program_theory.specs.Replies.{blame_error, no_reply_text, replied, reply_of};
ghost use Rattle.program_facts.specs.Generations.{IsWellFormed};
ghost use Rattle.program_values.specs.Guarded.{guarded_meaning};
ghost use Rattle.program_values.specs.Standing.{AllStand, ParamsStand, Stands};
ghost use Rattle.program_replies.specs.Profiled.{AreFiles, profiled};

/// All that is known of an application stands in it.
pub fn known_values_stand()
    ensures { (files : List UsedFile) (controller : List Name → Path) → AreFiles files →
        AllStand (index_in (profiled files controller)) (known (rules_of (profiled files controller))) }
{}

/// The value that a request which may begin is done with, over all that is known, stands in the application.
pub fn request_values_stand()
    ensures { (files : List UsedFile) (controller : List Name → Path) → AreFiles files → (request : Request) →
        IsWellFormed request → (v : Value) → let r = rules_of (profiled files controller) in
        (r.run (task.Request request) (known r)).answer ≡ Done v → Stands (index_in (profiled files controller)) v }
{}

/// Over a part of what is known no call is met whose receiver or argument names what doesn't stand in the application:
/// it makes no difference what such a call does.
pub fn no_call_names_what_is_not_there()
    ensures { (files : List UsedFile) (controller : List Name → Path) → AreFiles files → (other : Call) (t : Task) →
        let app = profiled files controller in
        ParamsStand (index_in app) t → (K : Task → Option Value) → Part K (known (rules_of app)) →
        (rules_of app).run t K ≡ over K (guarded_meaning (index_in app) app.rows app.limits other t) }
{}

/// A reply is told by what the request's run comes to over all that is known: 200 with the value's `to_s`; 500 with the
/// error, or with the blame of the task that it waits for; 404 where there is no route, no controller or no action.
pub fn replies_tell_answers()
    ensures value { (files : List UsedFile) (controller : List Name → Path) (request : Request) (v : Value) →
        let app = profiled files controller in let r = rules_of app in
        (r.run (task.Request request) (known r)).answer ≡ Done v →
        reply_of app request ≡ replied 200 (to_s v) }
    ensures error { (files : List UsedFile) (controller : List Name → Path) (request : Request) (e : RubyError) →
        let app = profiled files controller in let r = rules_of app in
        (r.run (task.Request request) (known r)).answer ≡ Raised e →
        reply_of app request ≡ replied 500 (error_text e) }
    ensures blamed { (files : List UsedFile) (controller : List Name → Path) (request : Request) (t : Task) →
        let app = profiled files controller in let r = rules_of app in
        (r.run (task.Request request) (known r)).answer ≡ Asks t →
        reply_of app request ≡ replied 500 (error_text (blame_error (blame r t))) }
    ensures other { (files : List UsedFile) (controller : List Name → Path) (request : Request) (end : NoReply) →
        let app = profiled files controller in let r = rules_of app in
        (r.run (task.Request request) (known r)).answer ≡ Otherwise end →
        reply_of app request ≡ replied 404 (no_reply_text request.controller request.action end) }
{}

/// Values are printed as the built-in methods `to_s` and `inspect` print them.
pub fn values_are_printed()
    ensures text { (files : List UsedFile) (controller : List Name → Path) (v : Value) →
        (profiled files controller).rows.to_s v ≡ to_s v }
    ensures shown { (files : List UsedFile) (controller : List Name → Path) (v : Value) →
        (profiled files controller).rows.inspect v ≡ inspect v }
{}
