//! What is said of an application's files before their Ruby is read: the limits, the configuration, why they are
//! refused, and the listing of their constants.
#![tactic(auto)]

mod configuration;
mod limits;
mod listing;
mod refusal;

pub use configuration::read_configuration;
pub use limits::{ExceededLimit, Limit, exceeded_limit, is_within_limits};
pub use listing::{ListedSite, Place, print_listing};
pub use refusal::Refusal;
