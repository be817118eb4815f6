//! The constants of an application: which file defines which constant, which constants are namespaces, and which files
//! are shadowed (Zeitwerk README, "File structure").
//!
//! # What a scan tells
//!
//! [`scan`] reads no file. It gives the [`Sites`] that the paths of a snapshot spell under a configuration:
//!
//! | Path, below the root `app/models` | Constant | Site |
//! |---|---|---|
//! | `app/models/admin.rb` | `Admin` | `Site::Explicit`, since `Admin::User` stands inside it |
//! | `app/models/admin/user.rb` | `Admin::User` | `Site::File` |
//! | `app/models/api/v1/posts.rb` | `Api`, `Api::V1` | `Site::Namespace`, as no file defines them |
//! | `app/services/admin.rb`, below the later root `app/services` | `Admin` | none: the file is shadowed |
//!
//! With the line `inflect api API` the third path spells `API::V1::Posts`, with `collapse app/models/api` it spells
//! `V1::Posts`, and with `ignore app/models/api/*` it spells nothing. A name that is no constant name is a fault of the
//! first file that has it, `app/models/foo-bar.rb` for one, and so are two root lines of one path.
//!
//! # How it works
//!
//! | Step | Crate | Gives |
//! |---|---|---|
//! | the directories below which paths spell constants | `tree_scan_roots` | a `RootTable`, which finds the root of a
//! path |
//! | the configuration's lines, arranged for looking up | `tree_scan_names` | the `NamingRules` |
//! | the names of each path below its root | `tree_scan_names` | a `Spelling` of each file |
//! | the constants, sorted | `tree_scan_sites` | a `SiteTable`, which [`Sites`] asks |
//!
//! A file is told by its place in the snapshot, and a root by its place among the roots. So of two files that spell one
//! constant the one with the lesser root, and then the lesser number, defines it, and the other is shadowed.
//!
//! # The rule
//!
//! A path spells its root's namespace, and then the camelized names of its directories below the root that aren't
//! collapsed, and of its base. It does so where it ends in `.rb`, no name below the root begins with a point, and no
//! pattern of `ignore` names it or a directory between it and the root (`specs/Spells.antt`). The sites follow from
//! what
//! the paths spell (`specs/Sites.antt`).
#![tactic(auto)]

mod fault;
mod scanning;
mod sites;
mod spelling;

pub use fault::ScanFault;
pub use scanning::scan;
pub use sites::{FilePaths, Sites};
pub use tree_scan_names::camelize;
pub use tree_scan_sites::{Site, SiteRow};
