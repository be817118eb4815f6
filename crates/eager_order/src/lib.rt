//! In which order an application's files are loaded eagerly.
//!
//! Of these files below the roots `app/models` and `app/services`, in this order,
//!
//! | Path | Root | Level |
//! |---|---|---|
//! | `app/models/post.rb` | 0 | 0 |
//! | `app/models/user.rb` | 0 | 0 |
//! | `app/models/admin/role.rb` | 0 | 1 |
//! | `app/models/post/draft.rb` | 0 | 1 |
//! | `app/services/mail.rb` | 1 | 0 |
//!
//! each comes before those below it: roots come in their order, each is gone through level by level, and the entries of
//! a directory come by their bytes.
//!
//! A file is told by its number, its place in the snapshot. Each file's root is found and its path is cut once; then
//! the files are sorted, so that nothing is quadratic.
#![tactic(auto)]

mod order;
mod placed;

pub use order::in_eager_order;
pub use placed::PlacedFile;
