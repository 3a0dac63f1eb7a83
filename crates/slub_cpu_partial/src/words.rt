//! The words of a partial list, and the frames that they lead to.

ghost use Rattle.std.specs.Prelude.{◌≡◌, ◌+◌, ◌-◌, ◌≤◌, length, MatchOption};
ghost use Rattle.slub_cpu_partial.specs.Strings.{list_bits, link_bits, IsList, IsListWord, IsLinkWord, AreLinked, string_in};

/// The partial list of a cache and a CPU.
#[derive(Clone, Copy, Debug, PartialEq, Eq)]
pub struct ListWord {
    /// The first frame of the front slab; 0 for none.
    pub front: u16,
    /// The slabs of the list.
    pub count: u16,
}

/// What stands behind a slab on its list.
#[derive(Clone, Copy, Debug, PartialEq, Eq)]
pub struct LinkWord {
    /// The first frame of the next slab; 0 for none.
    pub next: u16,
}

impl ListWord {
    /// The word of a list, which has no front exactly where it has no slab.
    pub fn pack(self) -> u64
        requires { IsList self.front self.count }
        ensures bits { result ≡ list_bits self }
        ensures word { IsListWord result }
    {
        u64::from(self.count) << 16 | u64::from(self.front)
    }

    /// The list of a word; None where a bit above 31 is set or one of front and count is 0 alone.
    pub fn unpack(word: u64) -> Option<ListWord>
        ensures { MatchOption result (¬ IsListWord word) (λ list. IsListWord word × (list_bits list ≡ word)) }
    {
        if word > u64::from(u32::MAX) {
            return None;
        }
        let front = (word & 0xffff) as u16;
        let count = (word >> 16) as u16;
        if (front == 0) != (count == 0) {
            return None;
        }
        Some(ListWord { front, count })
    }

    /// The list with `more` slabs, 1 or more, before its own; `front` is the first of them. A list has at most 4095.
    pub fn joined(self, front: u16, more: u16) -> ListWord
        requires some_front { 1 ≤ front }
        requires some_more { 1 ≤ more }
        requires room { self.count + more ≤ 4095 }
        ensures front { result.front ≡ front }
        ensures count { result.count ≡ self.count + more }
    {
        ListWord {
            front,
            count: self.count + more,
        }
    }
}

impl LinkWord {
    /// The word of a link.
    pub fn pack(self) -> u64
        ensures bits { result ≡ link_bits self }
        ensures word { IsLinkWord result }
    {
        u64::from(self.next)
    }

    /// The link of a word; None where a bit above 15 is set.
    pub fn unpack(word: u64) -> Option<LinkWord>
        ensures { MatchOption result (¬ IsLinkWord word) (λ link. IsLinkWord word × (link_bits link ≡ word)) }
    {
        match u16::try_from(word) {
            Ok(next) => Some(LinkWord { next }),
            Err(_) => None,
        }
    }
}

/// Writes the frames of a list into `room`, front first. `links[f]` is the next of frame f; that of the last is not
/// asked for.
pub fn frames_of(word: ListWord, links: &[u16], room: &mut [u16])
    requires as_long { length room.old ≡ word.count }
    requires linked { AreLinked links.now (string_in links.now word.front (word.count - 1)) }
    ensures { room.new ≡ string_in links.now word.front word.count }
{
    let mut frame = word.front;
    for (at, place) in room.iter_mut().enumerate() {
        if at > 0 {
            frame = links[usize::from(frame)];
        }
        *place = frame;
    }
}
