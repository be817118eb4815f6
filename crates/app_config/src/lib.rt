//! The configuration of an application's code loading: the text of `config/loader.conf`.
//!
//! [`read`] gives the configuration or the fault of the first line that has one; [`names`] says which paths a pattern
//! names. [`PatternIndex`] and [`Inflections`] answer the same of many patterns and lines without trying each of them.
#![tactic(auto)]

mod config;
mod entries;
mod inflections;
mod matching;
mod operands;
mod paths;
mod pattern_index;
mod patterns;
mod plain_patterns;
mod reading;
mod starred;
mod text;

pub use config::{
    CONFIGURATION_PATH, Config, ConfigFault, ConfigKind, ConfigText, ConfigTexts, LoadLine,
    LoadLines, Patterns, RootLine, RootLines, TextPairs,
};
pub use inflections::Inflections;
pub use paths::{is_constant, is_tree_path};
pub use pattern_index::PatternIndex;
pub use patterns::names;
pub use reading::read;
pub use text::cut_at;
