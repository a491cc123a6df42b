//! Which events are drawn.
ghost use Rattle.std.specs.Prelude.{◌≡◌, ◌≤◌, ◌<◌, ◌+◌, IfSome, IsSome, None, Some};

/// How many events are drawn where the last one is not said.
pub const USUAL_EVENTS: u64 = 400;

/// The most events of a picture.
pub const MOST_EVENTS: u64 = 10_000;

/// The numbers of the first and the last event that are drawn.
#[derive(Clone, Copy, Debug, PartialEq, Eq)]
pub struct View {
    pub from: u64,
    pub to: u64,
}

/// The view that is said so. `None` exactly where the last event comes before the first, or there would be more than
/// [`MOST_EVENTS`].
pub fn view_of(from: Option<u64>, to: Option<u64>) -> Option<View>
    ensures first { IfSome result (λ view. IfSome from (λ said. view.from ≡ said)) }
    ensures last { IfSome result (λ view. IfSome to (λ said. view.to ≡ said)) }
    ensures order { IfSome result (λ view. view.from ≤ view.to) }
    ensures most { IfSome result (λ view. view.to < view.from + MOST_EVENTS) }
    ensures usual { from ≡ None → to ≡ None → result ≡ Some (record { from = 1; to = USUAL_EVENTS }) }
{
    let from = from.unwrap_or(1);
    let to = to.unwrap_or(from.saturating_add(USUAL_EVENTS - 1));
    if to < from || to - from >= MOST_EVENTS {
        return None;
    }
    Some(View { from, to })
}
