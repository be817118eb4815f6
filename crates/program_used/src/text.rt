use ruby_types::FileTree;

/// What a file's text is: its tree, or the kind of its first fault in words and the fault's place.
#[derive(Drop)]
pub enum FileText {
    Tree(FileTree),
    Fault { kind: &'static str, at: u32 },
}
