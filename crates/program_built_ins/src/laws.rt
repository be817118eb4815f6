//! The laws of what built-in methods name, each as the contract of a function that does nothing.
ghost use Rattle.std.specs.Prelude.{◌≡◌};
ghost use Rattle.program_places.specs.Places.{Index};
ghost use Rattle.program_places.specs.Tasks.{EachIs};
ghost use Rattle.ruby_builtin.specs.Rows.{built_in_called};
ghost use Rattle.ruby_builtin_arrays.specs.ArrayRows.{array_rows};
ghost use Rattle.ruby_builtin_common.specs.CommonRows.{module_rows, sym_rows, value_rows};
ghost use Rattle.ruby_builtin_hashes.specs.HashRows.{hash_rows};
ghost use Rattle.ruby_builtin_numbers.specs.IntRows.{int_rows};
ghost use Rattle.ruby_builtin_texts.specs.StrRows.{str_rows};
ghost use Rattle.ruby_runs.specs.BuiltIns.{BuiltIns};
ghost use Rattle.program_values.specs.Standing.{NamesNothingNew, PairStands, Stands};
ghost use Rattle.program_built_ins.specs.Rows.{Anything, RowsStand};

/// What the rows of Integer, String, Symbol and Module give stands.
pub fn plain_rows_stand()
    ensures numbers { (index : Index) → RowsStand index Anything int_rows }
    ensures texts { (index : Index) → RowsStand index Anything str_rows }
    ensures symbols { (index : Index) → RowsStand index Anything sym_rows }
    ensures modules { (index : Index) → RowsStand index Anything module_rows }
{}

/// What the rows of Array and Hash give stands, where the members do, and what those of every value give, where the
/// receiver does.
pub fn rows_of_what_stands_stand()
    ensures arrays { (index : Index) → RowsStand index (EachIs (Stands index)) array_rows }
    ensures hashes { (index : Index) → RowsStand index (EachIs (PairStands index)) hash_rows }
    ensures values { (index : Index) → RowsStand index (Stands index) value_rows }
{}

/// The built-in methods of the profile name nothing that neither the receiver nor an argument names.
pub fn built_ins_name_nothing_new()
    ensures { (index : Index) (rows : BuiltIns) → rows.called ≡ built_in_called → NamesNothingNew index rows }
{}
