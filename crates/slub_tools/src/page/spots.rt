//! What stands in `page/spots.js`; made from it by `page/make program`.

/// The text of that file.
pub const TEXT: &[u8] =
    br##"// Where a worker may stand. Of each spot: its functions of `mm/slub.c`, the word and the step that it calls for,
// what the step is for, and where Linux 6.1 does otherwise.

const SPOTS = new Map();
function spot(name, by, word, step, does, linux) {
  SPOTS.set(name, { by: by.split('|'), word, step, does, linux });
}

// Allocation
spot('LoadCpu', 'slab_alloc_node', 'cpu', 'load',
  'Loads the CPU word: its transaction id, which slab is current here, and the first object of its freelist.');
spot('LoadNext', 'get_freepointer_safe', 'next', 'load',
  "Loads the free pointer of the first object: what is to be the head once that object is taken. The object may be another's by now; then the exchange that follows is lost.");
spot('Pop', 'slab_alloc_node', 'cpu', 'exchange',
  'Takes the first object off the CPU freelist, if the CPU word is still the one that was noted. Every change of that word raises its transaction id.');
spot('Detach', '___slab_alloc', 'cpu', 'exchange',
  "The CPU freelist is empty: takes the current slab off the CPU, to look for objects on the slab's own freelist.",
  "the slab stays current meanwhile, under the CPU's local lock.");
spot('LoadTaken', 'get_freelist', 'slab', 'load',
  'Loads the slab word: did others free objects of this slab onto its own freelist?');
spot('TakeAll', 'get_freelist', 'slab', 'exchange',
  "Takes the slab's whole own freelist, and counts all of its objects as in use. The slab stays frozen.");
spot('MarkFull', 'get_freelist', 'slab', 'exchange',
  'The slab has no free object: unfreezes it, so that it is full and on no list, if nobody freed into it since its word was noted.');
spot('TakeList', '___slab_alloc', 'list', 'swap',
  "No current slab has an object: takes the CPU's whole partial list.",
  "takes the front of the list alone, under the CPU's local lock.");
spot('FollowFront', '___slab_alloc', 'link', 'load',
  'Loads the link of the front slab: the slabs behind it are the rest of the list, which goes back onto it.');
spot('LoadKept', 'get_freelist', 'slab', 'load',
  'Loads the word of the front slab: which objects are free there?');
spot('FreezeKept', 'get_freelist', 'slab', 'exchange',
  'Freezes the front slab and takes its whole own freelist: it is to become current.',
  "a slab on a CPU's partial list is frozen already.");
spot('LockNode', 'get_partial_node', 'lock node', 'exchange',
  "Tries to take the node's lock (n->list_lock), to look for a slab on the node's partial list.",
  'looks at nr_partial first, without the lock.');
spot('PopNode', 'get_partial_node', 'node', 'at once',
  "Under the lock: takes the first slab off the node's partial list, where one is there and is wanted.");
spot('LoadPopped', 'acquire_slab', 'slab', 'load',
  "Loads the word of the slab that came off the node's list.");
spot('FreezePopped', 'acquire_slab', 'slab', 'exchange',
  'Freezes that slab and takes its whole own freelist: it is to become current.',
  "where this exchange is lost, it isn't tried again, and a new slab is made.");
spot('Unlist', 'acquire_slab', 'slab', 'exchange',
  "Takes the mark \"listed\" from one slab more, which is to go onto the CPU's partial list.",
  "freezes such a slab; it has no mark for slabs on the node's list.");
spot('GiveNode', 'get_partial_node', 'lock node', 'store',
  "Gives the node's lock back.");
spot('LockPool', 'alloc_slab_page', 'lock pool', 'exchange',
  "No slab has a free object for it: tries to take the page pool's lock, to make a new slab.");
spot('TakeRun', 'allocate_slab', 'pool', 'at once',
  'Under the lock: takes a run of page frames for a new slab.');
spot('GivePool', 'alloc_slab_page', 'lock pool', 'store',
  "Gives the page pool's lock back, with the frames in hand.");
spot('GiveDry', 'alloc_slab_page', 'lock pool', 'store',
  "Gives the page pool's lock back: there was no run of frames.");
spot('LinkNew', 'allocate_slab', 'next', 'store',
  'Strings the objects of the new slab together: stores one free pointer. Nobody else knows these frames yet.');
spot('Make', 'new_slab', 'slab', 'store',
  'The frames become a slab: frozen, and with all of its objects counted as in use. Its freelist is in hand.');
spot('LoadReady', 'get_freepointer', 'next', 'load',
  'Loads the free pointer of the first object in hand: that one is given, and the rest is to be the CPU freelist.');
spot('LoadAgain', '___slab_alloc', 'cpu', 'load',
  'Loads the CPU word again (retry_load_slab): is a slab current here meanwhile?');
spot('DetachOther', 'deactivate_slab', 'cpu', 'exchange',
  'Another slab became current here meanwhile: takes it off the CPU, freelist and all, to put it away.');
spot('Install', '___slab_alloc', 'cpu', 'exchange',
  'Makes the slab in hand current (load_freelist): its first object is given, and the rest is the CPU freelist.');

// Putting a slab away
spot('WalkChain', 'deactivate_slab', 'next', 'load',
  'Walks along the freelist in hand to its last object, and counts its objects (stage one).');
spot('LockAway', 'deactivate_slab', 'lock node', 'exchange',
  "Tries to take the node's lock, to put the slab away.",
  "takes this lock only where the slab goes onto the node's list.");
spot('LoadAway', 'deactivate_slab', 'slab', 'load',
  'Loads the word of the slab that is put away (stage two): did others free objects onto its own freelist?');
spot('LinkLast', 'set_freepointer', 'next', 'store',
  "Stores the head of the slab's own freelist in the last object of the freelist in hand, so that the two are one.");
spot('Unfreeze', 'deactivate_slab', 'slab', 'exchange',
  'Unfreezes the slab, with the freelist in hand before its own, if the slab word is still the one that was noted.');
spot('PutNode', 'add_partial', 'node', 'at once',
  "Under the lock: puts the slab onto the node's partial list. It goes to the tail if others had freed into it, else to the head.");
spot('GiveAway', 'deactivate_slab', 'lock node', 'store',
  "Gives the node's lock back.");

// Discarding
spot('Unmake', 'free_slab', 'slab', 'store',
  'No object of the slab is in use, and the node has slabs enough: it is a run of page frames again.');
spot('LockDiscard', '__free_slab', 'lock pool', 'exchange',
  "Tries to take the page pool's lock, to give the frames back. The node's lock is held, too.",
  "gives the node's lock back before.");
spot('PutRun', '__free_pages', 'pool', 'at once',
  'Under the lock: puts the frames back into the page pool.');
spot('GiveDiscard', '__free_slab', 'lock pool', 'store',
  "Gives the page pool's lock back.");

// Putting slabs onto a CPU's partial list
spot('LoadList', 'put_cpu_partial', 'list', 'load',
  "Loads the list word: which slab is the front of the CPU's partial list, and how many are there?");
spot('WalkString', 'put_cpu_partial', 'link', 'load',
  'Walks along the slabs in hand to the last one.');
spot('LinkString', 'put_cpu_partial', 'link', 'store',
  "Stores the front of the CPU's partial list as the slab behind the last one in hand (slab->next).");
spot('PushString', 'put_cpu_partial', 'list', 'exchange',
  "Makes the slabs in hand the front of the CPU's partial list, if the list word is still the one that was noted.",
  "stores the new front under the CPU's local lock.");

// Free
spot('TakeBoard', 'profile', 'board', 'swap',
  'Takes the object off the board, where each number stands that has no holder: who swaps first may free it.',
  'has no board, and trusts that its callers free an object once.');
spot('LoadOwn', 'do_slab_free', 'cpu', 'load',
  "Loads the CPU word: is the object's slab current on this CPU?");
spot('LinkOwn', 'set_freepointer', 'next', 'store',
  'It is: stores the head of the CPU freelist in the object that is freed.');
spot('Push', 'do_slab_free', 'cpu', 'exchange',
  'Makes the object the head of the CPU freelist, if the CPU word is still the one that was noted. No other word is touched.');
spot('LoadSlab', '__slab_free', 'slab', 'load',
  "The object goes onto its slab's own freelist: loads the slab word.");
spot('LinkSlab', 'set_freepointer', 'next', 'store',
  "Stores the head of the slab's own freelist in the object that is freed.");
spot('FreeSlab', '__slab_free', 'slab', 'exchange',
  "Makes the object the head of the slab's own freelist, and counts one less in use, if the slab word is still the one that was noted. If the slab was full and on no list, it is then in this worker's hand.",
  'freezes a full slab by the same exchange.');
spot('LockFree', '__slab_free', 'lock node', 'exchange',
  "This may be the last object in use of a slab on the node's list, which may then have to leave it: tries to take the node's lock first.");
spot('LoadLocked', '__slab_free', 'slab', 'load',
  'The second look: loads the slab word once more, under the lock. Is the slab still what it was?',
  'makes the exchange that it prepared, and begins anew where that is lost.');
spot('GoBack', '__slab_free', 'lock node', 'store',
  "The slab changed meanwhile: gives the node's lock back, and begins the free anew.");
spot('LinkLocked', 'set_freepointer', 'next', 'store',
  "Under the lock: stores the head of the slab's own freelist in the object that is freed.");
spot('FreeLocked', '__slab_free', 'slab', 'exchange',
  "Under the lock: makes the object the head of the slab's own freelist, and counts one less in use.");
spot('TakeOff', 'remove_partial', 'node', 'at once',
  "No object of the slab is in use: takes it off the node's list, if the node has min_partial slabs or more; else keeps it there.");
spot('GiveFree', '__slab_free', 'lock node', 'store',
  "Gives the node's lock back.");
spot('LoadCount', 'put_cpu_partial', 'list', 'load',
  "The slab was full and has a free object now, so it goes onto the CPU's partial list: how many are there already?");
spot('TakeSet', 'put_cpu_partial', 'list', 'swap',
  "There are cpu_partial_slabs or more: takes the CPU's whole partial list, to move it to the node.",
  'puts the freed slab onto the emptied list first, and then moves the others.');

// Moving a CPU's partial list to the node
spot('LockMove', '__unfreeze_partials', 'lock node', 'exchange',
  "Tries to take the node's lock, to move the slabs in hand to the node's list.");
spot('ChooseFront', '__unfreeze_partials', 'string', 'at once',
  'Goes to the next slab in hand, where one is left.');
spot('FollowSet', '__unfreeze_partials', 'link', 'load',
  'Loads the link of the front slab in hand: which one is behind it?');
spot('LoadMoved', '__unfreeze_partials', 'slab', 'load',
  'Loads the word of the slab that is moved: is any of its objects in use?');
spot('ListSlab', '__unfreeze_partials', 'slab', 'exchange',
  "Gives the slab the mark \"listed\", if its word is still the one that was noted.",
  'unfreezes the slab by this exchange; it has no such mark.');
spot('PutTail', 'add_partial', 'node', 'at once',
  "Under the lock: puts the slab at the tail of the node's partial list.");
spot('GiveMove', '__unfreeze_partials', 'lock node', 'store',
  "Gives the node's lock back.");

// Flush of a CPU, trim of a cache
spot('LoadCurrent', '__flush_cpu_slab', 'cpu', 'load',
  'Loads the CPU word: is a slab of this cache current on that CPU?');
spot('DetachCurrent', 'flush_slab', 'cpu', 'exchange',
  'Takes the current slab off the CPU, freelist and all, if the CPU word is still the one that was noted.',
  'in a shrink each CPU does this to itself, by stores under its local lock.');
spot('TakeCurrent', 'unfreeze_partials', 'list', 'swap',
  "Takes the CPU's whole partial list, to move it to the node.");
spot('LockTrim', '__kmem_cache_do_shrink', 'lock node', 'exchange',
  "Tries to take the node's lock, to look for slabs without an object in use on the node's list.");
spot('ScanNode', '__kmem_cache_do_shrink', 'node', 'at once',
  "Goes on to the next slab of the node's list; at its end puts the fullest slabs first.");
spot('LoadScanned', '__kmem_cache_do_shrink', 'slab', 'load',
  'Loads the word of the slab that the scan has come to: is any of its objects in use?');
spot('DropScanned', '__kmem_cache_do_shrink', 'node', 'at once',
  "None is: takes the slab off the node's list.");
spot('GiveTrim', '__kmem_cache_do_shrink', 'lock node', 'store',
  "Gives the node's lock back.");

// Words of an object
spot('WriteWord', 'profile', 'word', 'store', 'Stores a word of an object that it holds.');
spot('ReadWord', 'profile', 'word', 'load', 'Loads a word of an object that it holds.');

// Checked caches
const CHECKED = 'alloc_single_from_partial|free_debug_processing|profile';
spot('LockChecked', CHECKED, 'lock node', 'exchange',
  "The cache is checked: tries to take the node's lock, under which its whole call is done.");
spot('DoChecked', CHECKED, 'checked', 'at once',
  'Under the lock: looks at the objects that it comes to for damage, and gives one, takes it back, reads or writes it.');
spot('LockRun', 'alloc_slab_page|__free_slab', 'lock pool', 'exchange',
  "Tries to take the page pool's lock, to take frames for a new slab or to put those of an empty one back.");
spot('MoveRun', 'allocate_slab|__free_pages', 'pool', 'at once',
  'Under the lock: takes the frames, or puts them back.');
spot('AddSlab', 'alloc_single_from_new_slab', 'checked', 'at once',
  'Makes the frames a slab, and gives its first object.');
spot('GiveRun', 'alloc_slab_page|__free_slab', 'lock pool', 'store',
  "Gives the page pool's lock back.");
spot('GiveChecked', CHECKED, 'lock node', 'store',
  "Gives the node's lock back.");

// Which noted word a worker relies on while it stands at a spot.
const RELIES = { LoadNext: 'cpu', Pop: 'cpu', Detach: 'cpu', DetachOther: 'cpu', Install: 'cpu', LinkOwn: 'cpu', Push: 'cpu',
  DetachCurrent: 'cpu', TakeAll: 'slab', MarkFull: 'slab', FreezeKept: 'slab', FreezePopped: 'slab', Unlist: 'slab',
  LinkLast: 'slab', Unfreeze: 'slab', LinkSlab: 'slab', FreeSlab: 'slab', LockFree: 'slab', LoadLocked: 'slab',
  LinkLocked: 'slab', FreeLocked: 'slab', ListSlab: 'slab', WalkString: 'list', LinkString: 'list', PushString: 'list' };

// What a slab in hand is to its worker.
const ROLES = {
  taken: 'off its CPU, to see what was freed into it', ready: 'to become current', leaving: 'to be put away',
  popped: "off the node's list, marked still", kept: "unfrozen, for a CPU's list or to become current",
  loose: 'to be listed or discarded' };
"##;
