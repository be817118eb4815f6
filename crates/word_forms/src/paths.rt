//! The path of a file of an application.
ghost use Rattle.std.specs.Prelude.{◌≡◌, bytes_eq};
ghost use Rattle.app_config.specs.Configuration.{configuration_path};
ghost use Rattle.word_forms.specs.Paths.{is_application_path};

use app_config::{CONFIGURATION_PATH, is_tree_path};

/// Whether a word is a path below `app/` or `lib/`, with no empty, `.` or `..` segment, or that of the configuration.
pub fn is_application_path(word: &[u8]) -> bool
    ensures { result ≡ is_application_path word.now }
{
    is_tree_path(word) || word == CONFIGURATION_PATH.as_bytes()
}
