use ruby_machine_ancestors::AncestorsWait;
use ruby_machine_files::FileWait;
use ruby_machine_frames::Core;
use ruby_machine_requests::RequestWait;
use ruby_runs::NoReply;
use ruby_types::{RubyError, Task, Value};

/// What waits for the value of a task.
#[derive(Drop)]
pub enum Wait {
    File(FileWait),
    Ancestors(AncestorsWait),
    Request(RequestWait),
    /// Code of a constant or an action.
    Code(Core),
}

/// Where a machine stands.
#[derive(Drop)]
pub enum Stage {
    Begins(Task),
    Waits(Wait),
    /// It was given the value that it waited for.
    Resumes(Wait, Value),
    Over,
}

/// What a machine comes to next.
#[derive(Drop)]
pub enum Next {
    Done(Value),
    Raised(RubyError),
    Asks(Task, Wait),
    /// A request without a reply of its own.
    Without(NoReply),
    Memory,
}
