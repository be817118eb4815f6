ghost use Rattle.std.specs.Prelude.{◌≢◌, []};

use outside::FilePath;
use program_entries::Entry;
use ruby_types::CPath;

/// What a file's text was read as: its entries, or the place of its first fault and the fault's kind in words.
#[derive(Drop)]
pub enum Reading<'t> {
    Entries(Vec<Entry<'t>>),
    Fault { kind: &'static str, at: u32 },
}

/// A file that is used, with the constant that its path spells and its text.
#[derive(Drop)]
pub struct ReadFile<'t> {
    pub path: &'t FilePath,
    pub constant: &'t CPath,
    pub reading: Reading<'t>,
    ghost named: { constant.now ≢ [] },
}
