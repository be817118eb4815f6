/// What stands at a constant path: nothing, a namespace that no file owns, or what the file of this number says.
#[derive(Clone, Copy, Debug, PartialEq, Eq)]
pub enum Standing {
    Missing,
    Implicit,
    Owned(u32),
}
