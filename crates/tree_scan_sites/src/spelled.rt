use ruby_types::{CPath, TextList};

/// The names of constants, without what they stand in.
pub type Names = TextList;

/// The file of this number spells the constant, below the root of this number.
#[derive(Drop)]
pub struct Spelled {
    pub constant: CPath,
    pub root: u32,
    pub file: u32,
}

/// What stands for a constant: the file of this number, such a file and a namespace, or a namespace alone.
#[derive(Clone, Copy, Debug, PartialEq, Eq)]
pub enum Site {
    File(u32),
    Explicit(u32),
    Namespace,
}

/// A constant with its site and the names of the constants inside it that have one.
#[derive(Drop)]
pub struct SiteRow {
    pub path: CPath,
    pub site: Site,
    pub children: Names,
}
