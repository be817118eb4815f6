//! Reading the history at a place.
ghost use Rattle.std.specs.Prelude.{◌≡◌, option_map};
ghost use Rattle.system_events.specs.State.{want_at, request_at};

use system_events::{Entry, Kept, Matter, Want};

// What the entry at a place opened a section for.
pub(crate) fn want_at<M: Matter>(entries: &[Entry<M>], place: Option<u64>) -> Option<&Want<M>>
    ensures { option_map (λ want. want.now) result ≡ want_at entries.now place }
{
    match place {
        None => None,
        Some(place) => match entries.get(place as usize) {
            None => None,
            Some(entry) => match &entry.kept {
                Kept::Seek(want) => Some(want),
                Kept::Take(want) => Some(want),
                _ => None,
            },
        },
    }
}

// The request of the Begin at a place.
pub(crate) fn request_at<M: Matter>(entries: &[Entry<M>], place: Option<u64>) -> Option<&M::Request>
    ensures { option_map (λ request. request.now) result ≡ request_at entries.now place }
{
    match place {
        None => None,
        Some(place) => match entries.get(place as usize) {
            None => None,
            Some(entry) => match &entry.kept {
                Kept::Begin(request) => Some(request),
                _ => None,
            },
        },
    }
}
