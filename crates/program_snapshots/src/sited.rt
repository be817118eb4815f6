ghost use Rattle.std.specs.Prelude.{◌≡◌, length};

use app_config::Config;
use outside::Snapshot;
use ruby_types::CPath;
use tree_scan::Sites;

/// A snapshot with what its configuration says and its sites, before its texts are read: each file that is used has its
/// constant, at its place.
#[derive(Drop)]
pub struct Sited {
    pub snapshot: Snapshot,
    pub config: Config,
    pub sites: Sites,
    pub constants: Vec<Option<CPath>>,
    ghost sized: { length constants.items ≡ length snapshot.files },
}
