ghost use Rattle.std.specs.Prelude.{◌≡◌, List, IfOk, MatchOption, None, Some};
ghost use Rattle.program_places.specs.Places.{Index};
ghost use Rattle.ruby_nodes.specs.Entries.{Entry};
ghost use Rattle.program_lookups.specs.Codes.{Loads, StandsAt, method_of, own_instance, own_singleton};

use crate::code::{MethodCode, OpeningCode, Scopes};
use ruby_nodes::NodeTable;
use ruby_types::{CPath, RubyError, Task, Text, TextList};
use std::alloc::AllocError;

/// What stands at a constant path, with the path of its file where it has one.
pub enum Standing<'a> {
    Missing,
    /// A namespace without a file.
    Implicit,
    /// The file is at fault.
    Faulty(&'a Text, &'a RubyError),
    /// An assigned constant: the node of its expression, and the scopes around.
    Assigned(&'a Text, u32, &'a Scopes),
    Opened(&'a Text, &'a OpeningCode),
}

/// What loading a file does.
pub enum LoadingCode<'a> {
    Absent,
    Fails(&'a RubyError),
    AsksFor(&'a [Task]),
}

/// What a program tells of its files. No call takes memory but `controller`.
pub trait Lookups {
    // All that is looked up.
    ghost index: { Self → Index };

    // What the nodes of method bodies and expressions stand for.
    ghost entries: { Self → List Entry };

    /// The nodes of all method bodies and assigned expressions.
    fn nodes(&self) -> &NodeTable
        ensures { result.now ≡ entries self.now };

    /// What stands at a path.
    fn place(&self, path: &CPath) -> Standing<'_>
        ensures { StandsAt (entries self.now) result ((index self.now).place path.now) };

    /// The singleton method of this name that the class or module at a path has of its own.
    fn singleton(&self, path: &CPath, name: &Text) -> Option<&MethodCode>
        ensures { MatchOption result (own_singleton name.now ((index self.now).place path.now) ≡ None)
            (λ found. own_singleton name.now ((index self.now).place path.now) ≡
            Some (method_of (entries self.now) found.now)) };

    /// The instance method or reader of this name that the class or module at a path has of its own.
    fn instance(&self, path: &CPath, name: &Text) -> Option<&MethodCode>
        ensures { MatchOption result (own_instance name.now ((index self.now).place path.now) ≡ None)
            (λ found. own_instance name.now ((index self.now).place path.now) ≡
            Some (method_of (entries self.now) found.now)) };

    /// What loading the file of this path does.
    fn loading(&self, file: &Text) -> LoadingCode<'_>
        ensures { Loads result ((index self.now).loading file.now) };

    /// Whether the second file is the first or that of an enclosing namespace of the first one's constant.
    fn near(&self, from: &Text, to: &Text) -> bool
        ensures { result ≡ (index self.now).near from.now to.now };

    /// The constant that a request's segments name.
    fn controller(&self, segments: &TextList) -> Result<CPath, AllocError>
        ensures { IfOk result (λ path. path ≡ (index self.now).controller segments.now) };

    /// Whether a file spells the constant.
    fn has_file(&self, path: &CPath) -> bool
        ensures { result ≡ (index self.now).has_file path.now };
}
