ghost use Rattle.std.specs.Prelude.{◌≡◌, ◌≢◌, ◌<◌, ◌^◌, length, All, IfOk, IfErr};
ghost use Rattle.std.specs.List.{find};
ghost use Rattle.std.specs.Option.{option_map};
ghost use Rattle.tree_report.specs.Configurations.{is_configuration, configuration_text, IsConfiguration};
ghost use Rattle.tree_report.specs.Configurations.{IsConfigurationFault};

use app_config::{CONFIGURATION_PATH, Config, ConfigFault, ConfigKind, read};
use outside::FileEntry;
use std::alloc::Global;

fn configuration_file(files: &[FileEntry]) -> Option<&FileEntry>
    ensures { option_map (λ f. f.now) result ≡ find is_configuration files.now }
{
    files.iter().find(|file| file.path.as_bytes() == CONFIGURATION_PATH.as_bytes())
}

fn text_of(files: &[FileEntry]) -> &[u8]
    ensures { result.now ≡ configuration_text files.now }
{
    match configuration_file(files) {
        Some(file) => file.bytes.as_bytes(),
        None => b"",
    }
}

/// The configuration of an application: what its file `config/loader.conf` says, or the empty one where there is no
/// such file.
pub fn read_configuration(alloc: Global, files: &[FileEntry]) -> Result<Config, ConfigFault>
    requires { All (λ file. length file.bytes < 2 ^ 32) files.now }
    ensures config { IfOk result (IsConfiguration files.now) }
    ensures fault { IfErr result (λ fault. fault.kind ≢ ConfigKind.Memory → IsConfigurationFault files.now fault) }
    ensures memory { IfErr result (λ fault. fault.kind ≡ ConfigKind.Memory → fault.line ≡ 0) }
{
    read(alloc, text_of(files))
}
