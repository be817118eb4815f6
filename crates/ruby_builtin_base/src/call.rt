ghost use Rattle.std.specs.Prelude.{◌≡◌, ◌-◌, ◌^◌, min, map};
ghost use Rattle.std.specs.List.{sum};
ghost use Rattle.ruby_types.specs.Size as sizes_of;
ghost use Rattle.ruby_builtin_base.specs.Costs.{call_sizes};

use ruby_types::{Value, size};
use std::alloc::Global;

/// A call of a built-in method: its receiver, its name, its arguments, and the turns that are left.
#[derive(Drop)]
pub struct Call<'a> {
    pub alloc: Global,
    pub on: &'a Value,
    pub name: &'a [u8],
    pub args: &'a [Value],
    pub left: u64,
    pub(crate) touched: u64,
    ghost measured: { touched ≡ min (call_sizes on.now args.now) (2 ^ 64 - 1) },
}

fn sizes(values: &[Value]) -> u64
    ensures { result ≡ min (sum (map sizes_of.size values.now)) (2 ^ 64 - 1) }
{
    let mut total = 0u64;
    for value in values {
        total = total.saturating_add(size(value));
    }
    total
}

impl<'a> Call<'a> {
    /// A call of a method on a receiver, with its arguments and the turns that are left.
    pub fn new(
        alloc: Global,
        on: &'a Value,
        name: &'a [u8],
        args: &'a [Value],
        left: u64,
    ) -> Call<'a>
        ensures on { result.on.now ≡ on.now }
        ensures name { result.name.now ≡ name.now }
        ensures args { result.args.now ≡ args.now }
        ensures left { result.left ≡ left }
    {
        let touched = size(on).saturating_add(sizes(args));
        Call {
            alloc,
            on,
            name,
            args,
            left,
            touched,
        }
    }
}
