use ruby_types::CPath;

/// A constant and the number of the file that owns it.
#[derive(Drop)]
pub struct Owned {
    pub path: CPath,
    pub file: u32,
}
