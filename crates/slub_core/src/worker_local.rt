//! A worker: where it stands, what it has noted, what it knows and what it has in hand.

ghost use Rattle.std.specs.Prelude.{◌≡◌, ◌+◌, ◌<◌, ◌≤◌, ◌++◌, ◌∷◌, [], nat_lt, reverse, length, slice_index_or, IfOk, IfSome};
ghost use Rattle.slub_core.specs.Local as local;
ghost use Rattle.slub_core.specs.Run.{idle};

use crate::call::Call;
use crate::hands::Hands;
use crate::local::{Answered, FrameRun, Hand, Known, PartialString};
use crate::spot::Spot;
use slub_common::no_memory::NoMemory;
use slub_cpu_partial::words::ListWord;
use slub_trace::reply::Reply;
use slub_words::cpu::CpuWord;
use slub_words::slab::SlabWord;
use std::alloc::Global;
use std::marker::Model;

/// No object.
const NOBODY: Known = Known {
    object: 0,
    frame: 0,
    index: 0,
    cache: 0,
    held: false,
};

/// No string.
const NO_STRING: PartialString = PartialString {
    front: 0,
    count: 0,
    cursor: 0,
    place: 0,
    link: None,
};

/// No run of frames.
const NO_RUN: FrameRun = FrameRun {
    frame: 0,
    order: 0,
    objects: 0,
};

/// What stands for a call where a worker has none.
const NO_CALL: Call = Call::Flush { cpu: 0 };

/// A worker of a round.
#[derive(Debug, Drop)]
pub struct Local {
    /// 0 to 15.
    worker: u8,
    spot: Spot,
    /// The cache and the CPU of its call; in a trim or a flush those that it has come to.
    cache: u8,
    cpu: u8,
    /// The place of the call's object among those that it knows.
    place: usize,
    /// The call is a try: of the fast path alone, if it allocates from a cache that isn't checked.
    fast: bool,
    /// The words that it loaded last, and the index plus one that a free pointer had.
    cpu_word: CpuWord,
    slab_word: SlabWord,
    list_word: ListWord,
    next: u16,
    /// The objects that it was given or took from the board in this round, and room for the others.
    known: Vec<Known>,
    /// In hand: slabs, a string of slabs, a run of frames.
    hands: Hands,
    string: Option<PartialString>,
    run: Option<FrameRun>,
    /// Of an allocation: how many slabs it has put on the CPU's partial list.
    put: u32,
    /// Of a flush: the place in the order of caches; of a trim or a flush: what it is to tell.
    turn: usize,
    count: u32,
    /// Of a trim: how many free objects each slab has that it has come by.
    scanned: Vec<u16>,
    /// Its calls, in their order.
    calls: Vec<Call>,
    /// Those that have a reply, with it, and room for the others.
    answers: Vec<Answered>,
}

impl Model for Local {
    ghost use Rattle.std.specs.Prelude.{◌≤◌, length, vec_capacity};
    ghost use Rattle.slub_core.specs.Local.{Local};
    ghost use Rattle.slub_core.specs.Hands.{hands_of};
    ghost use Rattle.slub_core.specs.Script.{todo_of, done_of};

    ghost Value = { Local };

    ghost view = { λ l. record {
      worker = l.worker;
      spot = l.spot;
      cache = l.cache;
      cpu = l.cpu;
      place = l.place;
      fast = l.fast;
      cpu_word = l.cpu_word;
      slab_word = l.slab_word;
      list_word = l.list_word;
      next = l.next;
      known = l.known.items;
      hands = hands_of l.hands;
      string = l.string;
      run = l.run;
      put = l.put;
      turn = l.turn;
      count = l.count;
      scanned = l.scanned.items;
      todo = todo_of l.calls.items l.answers.items;
      done = done_of l.answers.items;
    } };

    ghost invariant = { λ l. (length l.calls.items ≤ vec_capacity l.answers) × (4096 ≤ vec_capacity l.scanned) };
}

impl Local {
    /// A worker between two calls, before the first one of these.
    pub fn open(
        alloc: Global,
        worker: u8,
        known: Vec<Known>,
        calls: Vec<Call>,
    ) -> Result<Local, NoMemory>
        ensures { IfOk result (λ l. l ≡ record idle { worker = worker; known = known.items; todo = calls.items }) }
    {
        let scanned = Vec::with_capacity(alloc, 4096)?;
        let answers = Vec::with_capacity(alloc, calls.len())?;
        Ok(Local {
            worker,
            spot: Spot::Between,
            cache: 0,
            cpu: 0,
            place: 0,
            fast: false,
            cpu_word: CpuWord {
                tid: 0,
                frame: 0,
                head: 0,
            },
            slab_word: SlabWord {
                head: 0,
                inuse: 0,
                objects: 0,
                frozen: false,
                listed: false,
                cache: 0,
            },
            list_word: ListWord { front: 0, count: 0 },
            next: 0,
            known,
            hands: Hands::Empty,
            string: None,
            run: None,
            put: 0,
            turn: 0,
            count: 0,
            scanned,
            calls,
            answers,
        })
    }

    /// Its number.
    #[inline(always)]
    pub fn worker(&self) -> u8
        ensures { result ≡ self.now.worker }
    {
        self.worker
    }

    /// Its next step.
    #[inline(always)]
    pub fn spot(&self) -> Spot
        ensures { result ≡ self.now.spot }
    {
        self.spot
    }

    /// The cache of its call, or that it has come to.
    #[inline(always)]
    pub fn cache(&self) -> u8
        ensures { result ≡ self.now.cache }
    {
        self.cache
    }

    /// The CPU of its call, or that it has come to.
    #[inline(always)]
    pub fn cpu(&self) -> u8
        ensures { result ≡ self.now.cpu }
    {
        self.cpu
    }

    /// Whether its call is a try.
    #[inline(always)]
    pub fn is_fast(&self) -> bool
        ensures { result ≡ self.now.fast }
    {
        self.fast
    }

    /// The word of a CPU that it loaded last.
    #[inline(always)]
    pub fn cpu_word(&self) -> CpuWord
        ensures { result ≡ self.now.cpu_word }
    {
        self.cpu_word
    }

    /// The word of a slab that it loaded last.
    #[inline(always)]
    pub fn slab_word(&self) -> SlabWord
        ensures { result ≡ self.now.slab_word }
    {
        self.slab_word
    }

    /// The word of a partial list that it loaded last.
    #[inline(always)]
    pub fn list_word(&self) -> ListWord
        ensures { result ≡ self.now.list_word }
    {
        self.list_word
    }

    /// The index plus one that a free pointer had.
    #[inline(always)]
    pub fn next(&self) -> u16
        ensures { result ≡ self.now.next }
    {
        self.next
    }

    /// The object of its call, as far as it knows it.
    #[inline(always)]
    pub fn here(&self) -> Known
        ensures { result ≡ local.here self.now }
    {
        self.known_at(self.place)
    }

    /// What it knows of the object at a place.
    #[inline(always)]
    pub fn known_at(&self, place: usize) -> Known
        ensures { result ≡ slice_index_or self.now.known place local.nobody }
    {
        match self.known.get(place) {
            Some(known) => *known,
            None => NOBODY,
        }
    }

    /// The slab that it works on.
    #[inline(always)]
    pub fn hand(&self) -> Hand
        ensures { result ≡ local.hand_of self.now }
    {
        self.hands.first()
    }

    /// The slab that it keeps beside.
    pub fn beside(&self) -> Hand
        ensures { result ≡ local.beside self.now }
    {
        self.hands.beside()
    }

    /// How many slabs it has in hand.
    pub fn hand_count(&self) -> usize
        ensures { result ≡ length self.now.hands }
    {
        self.hands.len()
    }

    /// The string in hand.
    pub fn string(&self) -> Option<PartialString>
        ensures { result ≡ self.now.string }
    {
        self.string
    }

    /// The string in hand, or one of no slab.
    pub fn string_or_none(&self) -> PartialString
        ensures { result ≡ local.string_of self.now }
    {
        match self.string {
            Some(string) => string,
            None => NO_STRING,
        }
    }

    /// The run in hand, or one of no object.
    pub fn run_or_none(&self) -> FrameRun
        ensures { result ≡ local.run_of self.now }
    {
        match self.run {
            Some(run) => run,
            None => NO_RUN,
        }
    }

    /// How many slabs it has put on the CPU's partial list.
    pub fn put(&self) -> u32
        ensures { result ≡ self.now.put }
    {
        self.put
    }

    /// The place in the order of caches.
    pub fn turn(&self) -> usize
        ensures { result ≡ self.now.turn }
    {
        self.turn
    }

    /// What a trim or a flush is to tell.
    pub fn count(&self) -> u32
        ensures { result ≡ self.now.count }
    {
        self.count
    }

    /// How many free objects each slab has that a trim has come by.
    pub fn scanned(&self) -> &[u16]
        ensures { result.now ≡ self.now.scanned }
    {
        self.scanned.as_slice()
    }

    /// Its call; a flush where it has none.
    #[inline(always)]
    pub fn call(&self) -> Call
        ensures { result ≡ local.call_of self.now }
    {
        match self.calls.get(self.answers.len()) {
            Some(call) => *call,
            None => NO_CALL,
        }
    }

    /// Whether a call has no reply yet.
    #[inline(always)]
    pub fn has_call(&self) -> bool
        ensures { result ≡ nat_lt 0 (length self.now.todo) }
    {
        self.answers.len() < self.calls.len()
    }

    /// Its calls that have a reply, the first one first.
    #[inline(always)]
    pub fn answers(&self) -> &[Answered]
        ensures { reverse result.now ≡ self.now.done }
    {
        self.answers.as_slice()
    }
}

impl Local {
    /// It goes to a spot.
    #[inline(always)]
    pub fn at(&mut self, spot: Spot)
        ensures { self.new ≡ local.at self.old spot }
    {
        self.spot = spot;
    }

    /// It begins a call at this spot.
    #[inline(always)]
    pub fn begin(&mut self, spot: Spot, cache: u8, cpu: u8, place: usize, fast: bool)
        ensures { self.new ≡ record self.old { spot = spot; cache = cache; cpu = cpu; place = place; fast = fast; turn = 0; count = 0 } }
    {
        self.spot = spot;
        self.cache = cache;
        self.cpu = cpu;
        self.place = place;
        self.fast = fast;
        self.turn = 0;
        self.count = 0;
    }

    /// It has come to this cache.
    pub fn set_cache(&mut self, cache: u8)
        ensures { self.new ≡ record self.old { cache = cache } }
    {
        self.cache = cache;
    }

    /// It has come to this CPU.
    pub fn set_cpu(&mut self, cpu: u8)
        ensures { self.new ≡ record self.old { cpu = cpu } }
    {
        self.cpu = cpu;
    }

    /// It notes the word of a CPU.
    #[inline(always)]
    pub fn set_cpu_word(&mut self, word: CpuWord)
        ensures { self.new ≡ record self.old { cpu_word = word } }
    {
        self.cpu_word = word;
    }

    /// It notes the word of a slab.
    #[inline(always)]
    pub fn set_slab_word(&mut self, word: SlabWord)
        ensures { self.new ≡ record self.old { slab_word = word } }
    {
        self.slab_word = word;
    }

    /// It notes the word of a partial list.
    #[inline(always)]
    pub fn set_list_word(&mut self, word: ListWord)
        ensures { self.new ≡ record self.old { list_word = word } }
    {
        self.list_word = word;
    }

    /// It notes the index plus one that a free pointer had.
    #[inline(always)]
    pub fn set_next(&mut self, next: u16)
        ensures { self.new ≡ record self.old { next = next } }
    {
        self.next = next;
    }

    /// It has this string in hand, or none.
    pub fn set_string(&mut self, string: Option<PartialString>)
        ensures { self.new ≡ record self.old { string = string } }
    {
        self.string = string;
    }

    /// It has this run in hand, or none.
    pub fn set_run(&mut self, run: Option<FrameRun>)
        ensures { self.new ≡ record self.old { run = run } }
    {
        self.run = run;
    }

    /// So many slabs were put on the CPU's partial list.
    pub fn set_put(&mut self, put: u32)
        ensures { self.new ≡ record self.old { put = put } }
    {
        self.put = put;
    }

    /// It has come to this place in the order of caches.
    pub fn set_turn(&mut self, turn: usize)
        ensures { self.new ≡ record self.old { turn = turn } }
    {
        self.turn = turn;
    }

    /// It is to tell this.
    pub fn set_count(&mut self, count: u32)
        ensures { self.new ≡ record self.old { count = count } }
    {
        self.count = count;
    }

    /// It has come by no slab of the node list.
    pub fn clear_scanned(&mut self)
        ensures { self.new ≡ record self.old { scanned = [] } }
    {
        self.scanned.clear();
    }

    /// It has come by a slab with so many free objects.
    pub fn push_scanned(&mut self, free: u16)
        requires { length self.old.scanned < 4096 }
        ensures { self.new ≡ record self.old { scanned = self.old.scanned ++ free ∷ [] } }
    {
        self.scanned.push_reserved(free);
    }

    /// It holds the object of this slot.
    #[inline(always)]
    pub fn gets(&mut self, cache: u8, frame: u16, index: u16)
        ensures { self.new ≡ local.gets self.old cache frame index }
    {
        if let Some(known) = self.known.get_mut(self.place) {
            known.frame = frame;
            known.index = index;
            known.cache = cache;
            known.held = true;
        }
    }

    /// It holds the object of its call no more.
    #[inline(always)]
    pub fn loses(&mut self)
        ensures { self.new ≡ local.loses self.old }
    {
        if let Some(known) = self.known.get_mut(self.place) {
            known.held = false;
        }
    }

    /// It takes a slab in hand.
    pub fn with_hand(&mut self, hand: Hand)
        requires { length self.old.hands < 2 }
        ensures { self.new ≡ local.with_hand self.old hand }
    {
        self.hands = self.hands.with(hand);
    }

    /// It works on another form of the slab.
    pub fn set_hand(&mut self, hand: Hand)
        ensures { self.new ≡ local.set_hand self.old hand }
    {
        self.hands = self.hands.with_first(hand);
    }

    /// It lets the slab go.
    pub fn less_hand(&mut self)
        ensures { self.new ≡ local.less_hand self.old }
    {
        self.hands = self.hands.less();
    }

    /// The call that it is in has a reply.
    #[inline(always)]
    pub fn answered(&mut self, reply: Reply)
        requires { 0 < length self.old.todo }
        ensures { self.new ≡ local.answered self.old reply }
    {
        let call = self.call();
        self.answers.push_reserved(Answered { call, reply });
    }

    /// The call that it is in has this reply, if it is one.
    #[inline(always)]
    pub fn noted(&mut self, reply: Option<Reply>)
        requires { IfSome reply (λ r. 0 < length self.old.todo) }
        ensures { self.new ≡ local.noted self.old reply }
    {
        if let Some(reply) = reply {
            self.answered(reply);
        }
    }
}
