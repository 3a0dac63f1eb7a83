//! Which items of a trace are done, and of which the replies count.

ghost use Rattle.std.specs.Prelude.{◌≡◌, ◌<◌, ◌≤◌, count_by, IfSome, MatchOption};
ghost use Rattle.slub_outcomes.specs.Span.{IsRoundAt, IsSpan, is_round};

use slub_trace::trace::Item;

/// Which items are done, and of which the replies count.
#[derive(Clone, Copy, Debug, PartialEq, Eq)]
pub struct Span {
    /// The place of the first item that counts.
    pub first: usize,
    /// How many items are done; the last of them is the last that counts.
    pub end: usize,
}

/// Whether a `round` line begins the item.
fn is_round(item: &Item) -> bool
    ensures { result ≡ is_round item.now }
{
    matches!(item, Item::Round(_))
}

/// The place of the item that the n-th `round` line begins, n from 1 on; None where there are fewer.
fn place_of_round(items: &[Item], n: u32) -> Option<usize>
    requires { 1 ≤ n }
    ensures { MatchOption result (count_by is_round items.now < n) (IsRoundAt n items.now) }
{
    let mut before = 0;
    for (place, item) in items.iter().enumerate() {
        if is_round(item) {
            before += 1;
            if before == n {
                return Some(place);
            }
        }
    }
    None
}

/// All items; or those up to the round that is named, which counts alone.
pub fn span_of(items: &[Item], round: Option<u32>) -> Span
    requires { IfSome round (λ n. 1 ≤ n) }
    ensures { IsSpan round items.now result }
{
    let all = items.len();
    let Some(n) = round else {
        return Span { first: 0, end: all };
    };
    match place_of_round(items, n) {
        Some(place) => Span {
            first: place,
            end: place + 1,
        },
        None => Span {
            first: all,
            end: all,
        },
    }
}
