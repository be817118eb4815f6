use lists::SharedList;
use ruby_types::{CPath, ConstRef, Expr, Stmts, Text, TextList};

/// Lexical scopes, innermost first.
pub type Scopes = SharedList<CPath>;

/// What a definition writes, apart from its body.
#[derive(Clone, Copy)]
pub enum What<'t> {
    Module,
    /// A class, with its parent.
    Class(&'t Option<ConstRef>),
    /// A constant's expression.
    Assigned(&'t Expr),
    Method {
        single: bool,
        name: &'t Text,
        params: &'t TextList,
        body: &'t Stmts,
    },
    Include(&'t ConstRef),
    Readers(&'t TextList),
}

/// What a tree writes, with the constant that it opens or assigns, or else whose body it stands in; and the scopes
/// around it: of an opening those around the body, of a member the body's too.
#[derive(Drop)]
pub struct Entry<'t> {
    pub constant: CPath,
    pub scopes: Scopes,
    pub what: What<'t>,
}
