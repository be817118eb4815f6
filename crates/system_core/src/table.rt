//! Finding a task of the table.
ghost use Rattle.std.specs.Prelude.{◌≡◌, ◌<◌, ℕ, length, true, false, Some, None, slice_get, option_map};
ghost use Rattle.system_laws.specs.Lawful.{AllApart};
ghost use Rattle.system_core.specs.Tables.{entry_task, names, task_at, hashes_of, table_of, lookup};

use crate::fact::Fact;
use system_events::{Entry, Kept, Matter};
use system_places::Places;

// Whether the place is that of a Define of the task.
pub(crate) fn defines<M: Matter>(entries: &[Entry<M>], place: u64, task: &M::Task) -> bool
    ensures { result ≡ names M.facts task.now (entry_task (slice_get entries.now place)) }
{
    match entries.get(place as usize) {
        None => false,
        Some(entry) => match &entry.kept {
            Kept::Define(other) => M::same_task(other, task),
            _ => false,
        },
    }
}

// The place of a task among the facts. It walks the facts whose hashes fall into the task's bucket.
pub(crate) fn place_of<M: Matter>(
    entries: &[Entry<M>],
    facts: &[Fact<M>],
    places: &Places,
    task: &M::Task,
) -> Option<usize>
    requires { places.now.hashes ≡ hashes_of M.facts entries.now facts.now }
    ensures found { (i : ℕ) → result ≡ Some i →
        (i < length facts.now) × (names M.facts task.now (task_at entries.now facts.now i) ≡ true) }
    ensures none { result ≡ None → (i : ℕ) → i < length facts.now →
        names M.facts task.now (task_at entries.now facts.now i) ≡ false }
{
    let mut at = places.last(M::hash(task));
    'walk: while let Some(place) = at {
        if defines(entries, facts[place].place, task) {
            return Some(place);
        }
        at = places.last_before(place);
    }
    None
}

// The value of a task of the table.
pub(crate) fn value_in<'a, M: Matter>(
    entries: &[Entry<M>],
    facts: &'a [Fact<M>],
    places: &Places,
    task: &M::Task,
) -> Option<&'a M::Value>
    requires hashed { places.now.hashes ≡ hashes_of M.facts entries.now facts.now }
    requires apart { AllApart M.facts (table_of entries.now facts.now) }
    ensures { option_map (λ value. value.now) result ≡ lookup M.facts task.now (table_of entries.now facts.now) }
{
    match place_of(entries, facts, places, task) {
        None => None,
        Some(place) => Some(&facts[place].value),
    }
}
