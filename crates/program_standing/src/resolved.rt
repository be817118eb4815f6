use ruby_types::{CPath, Task};

/// What a name is found as.
#[derive(Drop)]
pub enum Resolved {
    /// The constant of the file of the innermost scope.
    Own(Task),
    /// The constant of another file, or of any where there is no scope.
    Other(u32, Task),
    /// A namespace that no file owns.
    Namespace(CPath),
    /// The fault of the file of a scope.
    Fault(u32),
    Missing,
}
