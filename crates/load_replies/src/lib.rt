//! What loads and requests are told as: the names of tasks, the error of a blame, and the reply to a request.
//!
//! | Run | Told |
//! |---|---|
//! | a ring of `app/lib/a.rb` and `B::Y` | `LoadError: circular load: B::Y -> app/lib/a.rb` |
//! | a request that is done with `7` | 200 `7` |
//! | a request to `/no/index`, for which there is no file | 404 `no controller NoController` |
//! | a request that waits for a task with a blame | 500, and the error that the blame is told as |
#![tactic(auto)]

mod blame;
mod names;
mod reply;

pub use blame::blame_error;
pub use names::push_task_name;
pub use reply::reply_of;
