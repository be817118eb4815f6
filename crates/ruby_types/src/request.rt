use crate::value::{CPath, Pairs, Text, TextList};

/// A request that was routed: `/admin/posts/show?id=7` has the controller's segments `admin` and `posts`, the action
/// `show` and the one pair `:id` and `"7"`. Without a route the controller has no segment.
#[derive(Drop)]
pub struct Request {
    pub controller: TextList,
    pub action: Text,
    pub params: Pairs,
}

/// An answer to a request: an HTTP status (RFC 9110, section 15) and the body.
#[derive(Drop)]
pub struct Reply {
    pub status: u16,
    pub body: Text,
}

/// What a load asks for: that a file was loaded, a constant's value, the ancestors of a class or module, or the answer
/// to a request.
#[derive(Drop)]
pub enum Task {
    File(Text),
    Const(CPath),
    Ancestors(CPath),
    Request(Request),
}

/// The class of an error (the Ruby documentation of StandardError and its kin). TurnBudget is this project's own.
#[derive(Clone, Copy, Debug, PartialEq, Eq)]
pub enum ErrorClass {
    Name,
    NoMethod,
    Argument,
    /// Ruby's TypeError.
    Kind,
    ZeroDivision,
    Range,
    Key,
    Runtime,
    Syntax,
    Stack,
    Load,
    TurnBudget,
}

/// An error that Ruby code raised. The path is that of the file whose code was running, or empty.
#[derive(Drop)]
pub struct RubyError {
    pub class: ErrorClass,
    pub message: Text,
    pub path: Text,
}
