ghost use Rattle.std.specs.Prelude.{◌≡◌, ℕ, List, IfOk, if◌then◌else◌};
ghost use Rattle.std.specs.Char.{to_ascii_uppercase, to_ascii_lowercase};
ghost use Rattle.tree_scan_names.specs.Camel as spec;
ghost use Rattle.tree_scan_names.specs.Camel.{IsCamelized};

use crate::rules::NamingRules;
use app_config::Config;
use lists::{Copying, Text};
use std::alloc::{AllocError, Global};

/// The constant name of a base name: that of the last `inflect` line for the base, else its pieces between `_`, each
/// with its first byte in upper case and the rest in lower case, joined. `html_parser` is camelized to `HtmlParser`.
pub fn camelize(alloc: Global, base: &[u8], config: &Config) -> Result<Text, AllocError>
    ensures camelized { IfOk result (λ name. IsCamelized config.now base.now name) }
    ensures only { IfOk result (λ name. (other : List ℕ) → IsCamelized config.now base.now other → other ≡ name) }
{
    match config.inflection(base) {
        Some(constant) => constant.copy(),
        None => camelized_base(alloc, base),
    }
}

/// The constant name of a base name, as [`camelize`] gives it, by rules that are looked up.
pub(crate) fn camelize_by(
    alloc: Global,
    base: &[u8],
    rules: &NamingRules,
) -> Result<Text, AllocError>
    ensures { IfOk result (IsCamelized rules.now base.now) }
{
    match rules.inflection(base) {
        Some(constant) => constant.copy(),
        None => camelized_base(alloc, base),
    }
}

/// The pieces of a base name between `_`, each with its first byte in upper case and the rest in lower case, joined.
fn camelized_base(alloc: Global, base: &[u8]) -> Result<Text, AllocError>
    ensures { IfOk result (λ name. name ≡ spec.camelized base.now) }
{
    let mut name = Vec::new(alloc);
    let mut begins = true;
    'bytes: for byte in base {
        if *byte == b'_' {
            begins = true;
        } else {
            name.push(cased_byte(*byte, begins))?;
            begins = false;
        }
    }
    Text::from_vec(alloc, name)
}

/// A byte in upper case where it begins a piece, else in lower case.
fn cased_byte(byte: u8, begins: bool) -> u8
    ensures { result ≡ (if begins then to_ascii_uppercase byte else to_ascii_lowercase byte) }
{
    if begins {
        byte.to_ascii_uppercase()
    } else {
        byte.to_ascii_lowercase()
    }
}
