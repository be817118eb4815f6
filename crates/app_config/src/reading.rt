ghost use Rattle.std.specs.Prelude.{◌≡◌, ◌≢◌, ◌<◌, ◌^◌, [], length, IfOk, IfErr, OnOk, IsOk};
ghost use Rattle.app_config.specs.Configuration.{configuration, faults, IsFirst, with_entry, with_said};
ghost use Rattle.app_config.specs.Entries.{meaning};

use crate::config::{Config, ConfigFault, ConfigKind};
use crate::entries::{Entry, read_line};
use crate::text::{cut_at, trimmed_line};
use std::alloc::{AllocError, Global};

const WANT_OF_MEMORY: ConfigFault = ConfigFault {
    line: 0,
    kind: ConfigKind::Memory,
};

fn add_entry(config: &mut Config, entry: Entry) -> Result<(), AllocError>
    ensures { OnOk result (config.new ≡ with_entry config.old entry) }
{
    match entry {
        Entry::Root(line) => config.roots.push(line),
        Entry::Collapse(pattern) => config.collapse.push(pattern),
        Entry::Ignore(pattern) => config.ignore.push(pattern),
        Entry::SkipEager(pattern) => config.skip_eager.push(pattern),
        Entry::Inflect(pair) => config.inflect.push(pair),
        Entry::OnLoad(line) => config.on_load.push(line),
    }
}

/// Adds what a line says. Where the line has a fault the configuration stays as it was.
fn add_line(alloc: Global, config: &mut Config, line: &[u8]) -> Result<(), ConfigKind>
    ensures added { OnOk result (config.new ≡ with_said config.old (meaning line.now)) }
    ensures sound { OnOk result (IsOk (meaning line.now)) }
    ensures fault { IfErr result (λ kind. kind ≢ ConfigKind.Memory → meaning line.now ≡ Err kind) }
{
    match read_line(alloc, line)? {
        None => Ok(()),
        Some(entry) => {
            add_entry(config, entry)?;
            Ok(())
        }
    }
}

/// The configuration that a text spells, or the fault of the first line that has one.
///
/// A line is judged in the order of [`ConfigKind`], but that it isn't UTF-8 goes before all else.
pub fn read(alloc: Global, bytes: &[u8]) -> Result<Config, ConfigFault>
    requires { length bytes.now < 2 ^ 32 }
    ensures config { IfOk result (λ config. config ≡ configuration bytes.now) }
    ensures sound { OnOk result (faults bytes.now ≡ []) }
    ensures fault { IfErr result (λ fault. fault.kind ≢ ConfigKind.Memory → IsFirst fault (faults bytes.now)) }
    ensures memory { IfErr result (λ fault. fault.kind ≡ ConfigKind.Memory → fault.line ≡ 0) }
{
    let mut config = Config::new(alloc);
    let mut rest = Some(bytes);
    let mut number = 0usize;
    'lines: while let Some(text) = rest {
        let (line, behind) = cut_at(text, b'\n');
        match add_line(alloc, &mut config, trimmed_line(line)) {
            Ok(()) => {
                number += 1;
                rest = behind;
            }
            Err(ConfigKind::Memory) => return Err(WANT_OF_MEMORY),
            Err(kind) => {
                return Err(ConfigFault {
                    line: (number + 1) as u32,
                    kind,
                });
            }
        }
    }
    Ok(config)
}
