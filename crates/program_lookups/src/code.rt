use lists::{Listed, SharedList};
use ruby_types::{CPath, ConstRef, Text, TextList};

/// Lexical scopes as constant paths, the innermost first.
pub type Scopes = SharedList<CPath>;

/// What a method does when it is called: the statements from a node on, or the reading of an instance variable.
#[derive(Drop)]
pub enum BodyCode {
    Statements(u32),
    Reads(Text),
}

/// A method, with the scopes and the file of its text.
#[derive(Drop)]
pub struct MethodCode {
    pub name: Text,
    pub params: TextList,
    pub body: BodyCode,
    pub scopes: Scopes,
    pub file: Text,
}

/// A constant behind `class X <` or `include`, with the scopes that it is looked up in.
#[derive(Drop)]
pub struct MentionCode {
    pub constant: ConstRef,
    pub scopes: Scopes,
}

/// A module or class, without its methods.
#[derive(Drop)]
pub struct OpeningCode {
    pub is_class: bool,
    pub parent: Option<MentionCode>,
    pub includes: Listed<MentionCode>,
}
