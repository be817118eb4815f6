use program_tasks::Tasks;
use ruby_types::RubyError;

/// The fault of a file that is used, if it has one, and its tasks.
#[derive(Drop)]
pub struct Outcome {
    pub fault: Option<RubyError>,
    pub tasks: Tasks,
}
