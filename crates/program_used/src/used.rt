ghost use Rattle.std.specs.Prelude.{◌≢◌, []};

use crate::text::FileText;
use ruby_types::CPath;

/// A file's constant and text.
#[derive(Drop)]
pub struct UsedText {
    pub constant: CPath,
    pub text: FileText,
    ghost named: { constant ≢ [] },
}
