ghost use Rattle.std.specs.Prelude.{◌≡◌, ◌++◌, ◌∷◌, [], codes, IfOk, OnOk};
ghost use Rattle.program_index.specs.Controllers.{camelized_by, controller_of, segment_name};

use app_config::Config;
use ruby_types::{CPath, Text};
use std::alloc::{AllocError, Global};
use tree_scan_names::camelize;

fn camelized(alloc: Global, base: &[u8], config: &Config) -> Result<Text, AllocError>
    ensures { IfOk result (λ name. name ≡ camelized_by config.now base.now) }
{
    camelize(alloc, base, config)
}

fn push_name(names: &mut Vec<Text>, name: Text) -> Result<(), AllocError>
    ensures { OnOk result (names.new.items ≡ names.old.items ++ name ∷ []) }
{
    names.push(name)?;
    Ok(())
}

/// `posts_controller` of `posts`.
fn with_suffix(alloc: Global, segment: &[u8]) -> Result<Vec<u8>, AllocError>
    ensures { IfOk result (λ base. base.items ≡ segment.now ++ codes "_controller") }
{
    let mut base = Vec::from_slice(alloc, segment)?;
    base.extend_from_slice(b"_controller")?;
    Ok(base)
}

/// The name that a segment gives, the last one with `_controller` behind it.
fn segment_name(
    alloc: Global,
    segment: &[u8],
    is_last: bool,
    config: &Config,
) -> Result<Text, AllocError>
    ensures { IfOk result (λ name. name ≡ segment_name config.now is_last segment.now) }
{
    if is_last {
        let base = with_suffix(alloc, segment)?;
        camelized(alloc, base.as_slice(), config)
    } else {
        camelized(alloc, segment, config)
    }
}

/// The constant of the controller that these segments name: of `admin` and `posts`, `Admin::PostsController`.
pub fn controller(alloc: Global, segments: &[Text], config: &Config) -> Result<CPath, AllocError>
    ensures { IfOk result (λ path. path ≡ controller_of config.now segments.now) }
{
    let mut names = Vec::new(alloc);
    let mut left = segments;
    'segments: while let [segment, behind @ ..] = left {
        let name = segment_name(alloc, segment.as_bytes(), behind.is_empty(), config)?;
        push_name(&mut names, name)?;
        left = behind;
    }
    CPath::from_vec(alloc, names)
}
