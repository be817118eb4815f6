ghost use Rattle.std.specs.Prelude.{◌↔◌, IsTrue};
ghost use Rattle.outside.specs.Watched.{IsWatched, BeginsWith, EndsWith};

/// The path of the configuration file.
pub const CONFIGURATION_PATH: &str = "config/loader.conf";

fn begins_with(path: &[u8], first: &[u8]) -> bool
    ensures { IsTrue result ↔ BeginsWith first.now path.now }
{
    path.starts_with(first)
}

fn ends_with(path: &[u8], last: &[u8]) -> bool
    ensures { IsTrue result ↔ EndsWith last.now path.now }
{
    path.ends_with(last)
}

/// Whether the file with this path is one that the program reads and watches.
pub fn is_watched(path: &[u8]) -> bool
    ensures { IsTrue result ↔ IsWatched path.now }
{
    path == CONFIGURATION_PATH.as_bytes()
        || (begins_with(path, b"app/") || begins_with(path, b"lib/")) && ends_with(path, b".rb")
}
