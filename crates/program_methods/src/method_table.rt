ghost use Rattle.std.specs.Prelude.{◌≡◌, ◌≤◌, true, false, length, IfOk, OnOk};
ghost use Rattle.std.specs.List.{find};
ghost use Rattle.std.specs.List.Sorted.{IsSorted, IsStable, IsPartitionPoint};
ghost use Rattle.std.specs.Option.{option_map};
ghost use Rattle.program_places.specs.Paths.{Name};
ghost use Rattle.program_methods.specs.Methods as spec;
ghost use Rattle.program_methods.specs.Methods.{comes_before, first_named, name_order};

use program_lookups::MethodCode;
use ruby_types::Text;
use std::alloc::AllocError;
use std::cmp::Ordering;
use std::marker::Model;

/// Methods by their names. Contracts see them in the order of the names, those of one name in the order of the text.
#[derive(Drop)]
pub struct MethodTable {
    methods: Vec<MethodCode>,
}

impl Model for MethodTable {
    ghost use Rattle.std.specs.Prelude.{List};
    ghost use Rattle.program_lookups.specs.declared.code.MethodCode.{MethodCode};

    ghost Value = { List MethodCode };

    ghost use Rattle.std.specs.List.Sorted.{IsSorted};
    ghost use Rattle.program_methods.specs.Methods.{name_order};

    ghost view = { λ t. t.methods.items };

    ghost invariant = { λ t. IsSorted name_order t.methods.items };
}

fn compare_names(method: &MethodCode, other: &MethodCode) -> Ordering
    ensures { result ≡ name_order method.now other.now }
{
    method.name.as_bytes().cmp(other.name.as_bytes())
}

fn put_in_order(methods: &mut Vec<MethodCode>) -> Result<(), AllocError>
    ensures sorted { OnOk result (IsSorted name_order methods.new.items) }
    ensures stable { IsStable name_order methods.old.items methods.new.items }
{
    methods.sort_by(
        |method: &MethodCode, other: &MethodCode| -> Ordering
            ensures { result ≡ name_order method.now other.now }
        { compare_names(method, other) },
    )
}

/// The place of the first method whose name isn't before this one.
fn place_of(methods: &[MethodCode], name: &[u8]) -> usize
    requires { IsSorted name_order methods.now }
    ensures bound { result ≤ length methods.now }
    ensures parted { IsPartitionPoint (λ m. comes_before name.now m ≡ true) (λ m. comes_before name.now m ≡ false)
        methods.now result }
{
    methods.partition_point(
        |method: &MethodCode| -> bool
            ensures { result ≡ comes_before name.entry.now method.now }
        { method.name.as_bytes().cmp(name).is_lt() },
    )
}

fn is_named(method: &MethodCode, name: &Text) -> bool
    ensures { result ≡ spec.is_named name.now method.now }
{
    method.name.as_bytes() == name.as_bytes()
}

impl MethodTable {
    /// The table of methods in text order. Of one name the first counts.
    pub fn new(methods: Vec<MethodCode>) -> Result<MethodTable, AllocError>
        ensures { IfOk result (λ table. (name : Name) → first_named name table ≡ first_named name methods.items) }
    {
        let mut methods = methods;
        put_in_order(&mut methods)?;
        Ok(MethodTable { methods })
    }

    /// The method of this name.
    pub fn find(&self, name: &Text) -> Option<&MethodCode>
        ensures { option_map (λ m. m.now) result ≡ first_named name.now self.now }
    {
        let methods = self.methods.as_slice();
        let place = place_of(methods, name.as_bytes());
        if place == methods.len() {
            return None;
        }
        let method = &methods[place];
        if is_named(method, name) {
            Some(method)
        } else {
            None
        }
    }
}
