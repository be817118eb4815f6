ghost use Rattle.std.specs.Prelude.{◌≡◌, ◌≢◌, [], MatchOption};
ghost use Rattle.app_config.specs.Configuration.{configuration};
ghost use Rattle.app_config.specs.Inflections.{IsLastFor, LacksBase};

use lists::{Listed, Text};
use std::alloc::Global;
use thiserror::Error;

/// The path of the configuration's file, below the application's folder.
pub const CONFIGURATION_PATH: &str = "config/loader.conf";

/// The bytes of a word or of a text.
pub type ConfigText = Text;

/// The names of a constant path; none for Object.
pub type ConfigTexts = Listed<ConfigText>;

/// Patterns of paths, as they are written.
pub type Patterns = Listed<ConfigText>;

/// Base names, each with the constant that it is camelized to.
pub type TextPairs = Listed<(ConfigText, ConfigText)>;

/// What the lines `root` say, in their order.
pub type RootLines = Listed<RootLine>;

/// What the lines `on_load` say, in their order.
pub type LoadLines = Listed<LoadLine>;

/// A root directory and the namespace of the constants below it.
#[derive(Drop)]
pub struct RootLine {
    pub path: ConfigText,
    pub namespace: ConfigTexts,
}

/// A text that is logged when a constant's file is loaded.
#[derive(Drop)]
pub struct LoadLine {
    pub constant: ConfigTexts,
    pub text: ConfigText,
}

/// A configuration. Each field is in the order of the lines.
#[derive(Drop)]
pub struct Config {
    pub roots: RootLines,
    pub collapse: Patterns,
    pub ignore: Patterns,
    pub inflect: TextPairs,
    pub on_load: LoadLines,
    pub skip_eager: Patterns,
}

/// Why a configuration isn't read: the line, counted from 1, and what is wrong with it. Want of memory has line 0.
#[derive(Clone, Copy, Debug, PartialEq, Eq, Error)]
#[error("line {line}: {kind}")]
pub struct ConfigFault {
    pub line: u32,
    pub kind: ConfigKind,
}

/// What is wrong with a line. Each text says a way out.
#[derive(Clone, Copy, Debug, PartialEq, Eq, Error)]
pub enum ConfigKind {
    /// The first word is none that begins a line, or there is no word.
    #[error("begin the line with root, collapse, ignore, skip_eager, inflect or on_load, or with # for a comment")]
    UnknownWord,
    /// The line has too few words or too many.
    #[error("give the line as many words as its first one asks for")]
    WordCount,
    /// A path or a pattern isn't below `app/` or `lib/`, or has an empty, `.` or `..` segment.
    #[error("write a path below app/ or lib/, without empty, . or .. segments")]
    BadPath,
    /// A constant path or a constant isn't one.
    #[error("write a constant as Name, and a constant path as Outer::Name")]
    BadName,
    /// The line isn't UTF-8.
    #[error("save the line as UTF-8")]
    NotUtf8,
    /// Memory ran out.
    #[error("out of memory, try again with more")]
    Memory,
}

impl Config {
    /// The configuration of an empty text, which takes no memory.
    pub fn new(alloc: Global) -> Config
        ensures { result ≡ configuration [] }
    {
        Config {
            roots: Listed::new(alloc),
            collapse: Listed::new(alloc),
            ignore: Listed::new(alloc),
            inflect: Listed::new(alloc),
            on_load: Listed::new(alloc),
            skip_eager: Listed::new(alloc),
        }
    }

    /// What a base name is camelized to: the constant of the last `inflect` line that has the base.
    pub fn inflection(&self, base: &[u8]) -> Option<&ConfigText>
        ensures { MatchOption result (LacksBase self.now.inflect base.now)
            (λ constant. IsLastFor self.now.inflect base.now constant.now) }
    {
        let pairs = self.inflect.as_slice();
        let mut left = pairs.len();
        'pairs: while left > 0 {
            left -= 1;
            let found = constant_for(&pairs[left], base);
            if found.is_some() {
                return found;
            }
        }
        None
    }
}

/// The constant of a pair that has the base.
fn constant_for<'a>(pair: &'a (ConfigText, ConfigText), base: &[u8]) -> Option<&'a ConfigText>
    ensures { MatchOption result (pair.now.0 ≢ base.now) (λ constant. pair.now ≡ (base.now, constant.now)) }
{
    if pair.0.as_bytes() == base {
        Some(&pair.1)
    } else {
        None
    }
}
