//! What a lock of the machine guards, and what is done to it at once.

ghost use Rattle.std.specs.Prelude.{◌≡◌, ◌+◌, [], ◌∷◌, ◌++◌, drop, MatchOption, IfSome};

use crate::local::FrameRun;
use crate::taken::run_from;
use slub_node_partial::NodeList;
use slub_object_layout::layout::Layout;
use slub_page_pool::Pool as Frames;
use slub_red_zone::checked::CheckedSlabs;

/// What a lock guards: a node list, the slabs of a checked cache, or the pool. Nothing where its cache isn't live.
#[derive(Debug, Drop)]
pub enum Guarded {
    Nothing,
    Node(NodeList),
    Checked(CheckedSlabs),
    Pool(Frames),
}

impl Guarded {
    ghost use Rattle.slub_page_pool.specs.Block.{CanPut};
    ghost use Rattle.slub_core.specs.Setup.{Setup};
    ghost use Rattle.slub_core.specs.World as value;
    ghost use Rattle.slub_core.specs.World.{frames_in, pool_in};
    ghost use Rattle.slub_core.specs.Alloc.{found_run};
    ghost use Rattle.slub_core.specs.Discard.{with_put};
    ghost use Rattle.slub_core.specs.Facts.{IsSmall};
    ghost use Rattle.slub_core.specs.Taken.{pool_left};
    ghost use Rattle.slub_core.specs.Values.{value_in, room_in, HasRoom, IsPoolValue};

    /// The slabs of a node list, head first.
    pub fn node(&self) -> &[u16]
        ensures { result.now ≡ frames_in (value_in self.now) }
    {
        match self {
            Guarded::Node(list) => list.frames(),
            _ => &[],
        }
    }

    /// Takes the head of a node list (`get_partial_node`); None where it is empty.
    pub fn pop(&mut self) -> Option<u16>
        ensures none { MatchOption result ((frames_in (value_in self.old) ≡ []) × (value_in self.new ≡ value_in self.old)) (λ frame. frames_in (value_in self.old) ≡ frame ∷ drop 1 (frames_in (value_in self.old))) }
        ensures some { IfSome result (λ frame. value_in self.new ≡ value.Node (drop 1 (frames_in (value_in self.old)))) }
        ensures room { room_in self.new ≡ room_in self.old }
    {
        match self {
            Guarded::Node(list) => list.pop(),
            _ => None,
        }
    }

    /// Puts a slab at the head of a node list (`add_partial`).
    pub fn push_head(&mut self, frame: u16)
        requires { HasRoom self.old }
        ensures after { value_in self.new ≡ value.Node (frame ∷ frames_in (value_in self.old)) }
        ensures room { room_in self.new ≡ room_in self.old }
    {
        match self {
            Guarded::Node(list) => list.push_head(frame),
            _ => unreachable!(),
        }
    }

    /// Puts a slab at the tail of a node list (`add_partial`).
    pub fn push_tail(&mut self, frame: u16)
        requires { HasRoom self.old }
        ensures after { value_in self.new ≡ value.Node (frames_in (value_in self.old) ++ frame ∷ []) }
        ensures room { room_in self.new ≡ room_in self.old }
    {
        match self {
            Guarded::Node(list) => list.push_tail(frame),
            _ => unreachable!(),
        }
    }

    /// Takes a run for a new slab from the pool: of the layout's order, else of its least order (`allocate_slab`).
    /// None is counted.
    pub fn take_run(&mut self, layout: &Layout) -> Option<FrameRun>
        requires small { IsSmall layout.now }
        requires pool { IsPoolValue self.old }
        ensures found { (m : Setup) → result ≡ found_run m (pool_in (value_in self.old)) layout.now }
        ensures after { value_in self.new ≡ value.Pool (pool_left (pool_in (value_in self.old)) layout.now result) }
        ensures room { room_in self.new ≡ room_in self.old }
    {
        match self {
            Guarded::Pool(pool) => run_from(pool, layout),
            _ => unreachable!(),
        }
    }

    /// Puts a run back into the pool (`__free_pages`).
    pub fn put_run(&mut self, run: FrameRun)
        requires pool { IsPoolValue self.old }
        requires fits { CanPut (pool_in (value_in self.old)) run.frame run.order }
        ensures after { value_in self.new ≡ value.Pool (with_put (pool_in (value_in self.old)) run) }
        ensures room { room_in self.new ≡ room_in self.old }
    {
        match self {
            Guarded::Pool(pool) => pool.put(u32::from(run.frame), run.order),
            _ => unreachable!(),
        }
    }
}
