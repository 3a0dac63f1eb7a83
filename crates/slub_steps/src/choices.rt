//! Who says whose turn comes next in a round, by how many rounds stand before it.

ghost use Rattle.std.specs.Prelude.{◌≡◌, ◌+◌, ◌-◌, ◌^◌, ◌∷◌, [], count_by, min, option_copied, slice_get};
ghost use Rattle.slub_steps.specs.Inner.{OpensAs};
ghost use Rattle.slub_steps.specs.Sayers.{sayer_of};
ghost use Rattle.slub_steps.specs.Written.{is_round, is_shared};

use slub_picks::list::{Part, PickList};
use slub_picks::walk::Walk;
use slub_picks::words::Way;
use slub_round_log::choice::Choice;
use slub_schedule::draws::Draws;
use slub_trace::event::Round;
use slub_trace::trace::Item;

/// How many rounds were done, as far as the numbers go.
#[derive(Clone, Copy, Debug)]
pub struct RoundCounts {
    /// How many `round` lines.
    pub lines: u32,
    /// How many of them of two or more workers.
    pub several: usize,
}

impl RoundCounts {
    /// Behind the item.
    pub fn after(self, item: &Item) -> RoundCounts
        ensures lines { result.lines ≡ min (self.lines + count_by is_round (item.now ∷ [])) (2 ^ 32 - 1) }
        ensures several { result.several ≡ min (self.several + count_by is_shared (item.now ∷ [])) (2 ^ 64 - 1) }
    {
        match item {
            Item::Round(round) if round.workers > 1 => RoundCounts {
                lines: self.lines.saturating_add(1),
                several: self.several.saturating_add(1),
            },
            Item::Round(_) => RoundCounts {
                lines: self.lines.saturating_add(1),
                several: self.several,
            },
            _ => self,
        }
    }
}

/// The part of this number of the rounds of two or more workers.
fn part_at(list: &PickList, number: usize) -> Option<&Part>
    ensures { option_copied result ≡ slice_get list.now.parts number }
{
    list.parts.as_slice().get(number)
}

/// Who says whose turn comes next, in the round behind so many others.
pub fn choice_of<'a>(
    way: &'a Way,
    nothing: &'a Part,
    round: &Round,
    before: RoundCounts,
) -> Choice<'a>
    requires { nothing.now.entries ≡ [] }
    ensures { OpensAs (sayer_of way.entry.now before.lines before.several round.now) round.now.workers result }
{
    if round.workers <= 1 {
        return Choice::Alone;
    }
    match way {
        Way::Seed(seed) => Choice::Seed(Draws::open(seed.wrapping_add(u64::from(before.lines)))),
        Way::Picks(list) => {
            let part = match part_at(list, before.several) {
                Some(part) => part,
                None => nothing,
            };
            Choice::Part(Walk::open(part, round.workers as usize))
        }
    }
}
