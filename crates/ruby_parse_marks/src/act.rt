//! What definitions do to paths.

/// What a definition does to its path.
#[derive(Drop)]
pub enum Act {
    Assigns,
    OpensModule,
    OpensClass,
    GivesParent,
    /// A method of the body at the path; `single` is true of a singleton method.
    Defines { single: bool, name: Vec<u8> },
}
