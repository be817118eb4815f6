//! The law of the tasks of files, as the contract of a function that does nothing.
ghost use Rattle.std.specs.Prelude.{◌≡◌, ◌∷◌, ℕ, List};
ghost use Rattle.eager_plan.specs.Plan.{IsUsed};
ghost use Rattle.eager_tasks.specs.Loads.{file_task};
ghost use Rattle.program_index.specs.Content.{Content};
ghost use Rattle.program_index.specs.Program.{IsProgram, tasks_of};
ghost use Rattle.ruby_types.specs.declared.request.Task.{Task as TaskValue};

/// The first task of a file that is used loads it.
pub fn the_first_task_of_a_file_loads_it()
    ensures { (p : Content) (number : ℕ) → IsProgram p.files p → IsUsed p.sites.spelled number →
        (behind : List TaskValue) × (tasks_of p number ≡ file_task p.files number ∷ behind) }
{}
