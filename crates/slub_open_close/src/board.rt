//! What object numbers name: objects on the board and with workers, and how many there are of each cache.

ghost use Rattle.std.specs.Prelude.{◌≡◌, ℕ, ◌^◌, ◌<◌, ◌≤◌, All, [], ◌∷◌, length, sum_by, None, slice_index_or};
ghost use Rattle.std.specs.Option.{option_or};
ghost use Rattle.slub_core.specs.Accounted.{AreDistinct};
ghost use Rattle.slub_core.specs.Local.{Local as Worker};
ghost use Rattle.slub_core.specs.declared.local.Known.{Known as Object};
ghost use Rattle.slub_lists.specs.Coherent.{held_of};
ghost use Rattle.slub_law_opening.specs.Rests.{held_in, held_among};
ghost use Rattle.slub_open_close.specs.Reads.{on_board};

use slub_core::local::Known;
use slub_core::words::board_in;
use slub_core::worker_local::Local;
use slub_lists::lists::Held;
use slub_schedule::table::Table;

/// Writes what each number names, by the words of the board, which begin at a word of the table, and
/// by what the workers hold.
pub fn close_board(table: &Table, base: usize, locals: &[Local], board: &mut [Option<Held>])
    requires base { base < 2 ^ 32 }
    requires few { length board.old ≤ 1048577 }
    ensures { All (λ (l : Worker). AreDistinct l.known × All (λ (k : Object). k.object < length board.old) l.known) locals.now → (object : ℕ) → object < length board.old → slice_index_or board.new object None ≡ option_or (on_board table.now.words base object) (held_among locals.now object) }
{
    lay_down(table, base, board);
    for local in locals {
        put_known(local, board);
    }
}

/// Writes what each number names on the board.
fn lay_down(table: &Table, base: usize, board: &mut [Option<Held>])
    requires base { base < 2 ^ 32 }
    requires few { length board.old ≤ 1048577 }
    ensures { (object : ℕ) → object < length board.old → slice_index_or board.new object None ≡ on_board table.now.words base object }
{
    for (object, entry) in board.iter_mut().enumerate() {
        *entry = boarded(table, base, object);
    }
}

/// What a number names on the board.
fn boarded(table: &Table, base: usize, object: usize) -> Option<Held>
    requires base { base < 2 ^ 32 }
    requires object { object ≤ 1048577 }
    ensures { result ≡ on_board table.now.words base object }
{
    if object == 0 {
        return None;
    }
    let on_board = board_in(table.word(base + object))?;
    Some(Held {
        frame: on_board.frame,
        index: on_board.index,
        cache: on_board.cache,
        worker: None,
    })
}

/// Puts what a worker holds beside what stands on the board. What it knows ends where a second object
/// number is 0: of those that it knows one is 0 at most.
fn put_known(local: &Local, board: &mut [Option<Held>])
    ensures { AreDistinct local.now.known → All (λ (k : Object). k.object < length board.old) local.now.known → (object : ℕ) → object < length board.old → slice_index_or board.new object None ≡ option_or (slice_index_or board.old object None) (held_in local.now.worker local.now.known object) }
{
    let mut was_zero = false;
    for place in 0..board.len() {
        let known = local.known_at(place);
        if known.object == 0 {
            if was_zero {
                return;
            }
            was_zero = true;
        }
        put_held(local.worker(), known, board);
    }
}

/// Puts an object that a worker holds beside what stands there.
fn put_held(worker: u8, known: Known, board: &mut [Option<Held>])
    ensures length { length board.new ≡ length board.old }
    ensures put { (object : ℕ) → object < length board.old → slice_index_or board.new object None ≡ option_or (slice_index_or board.old object None) (held_in worker (known ∷ []) object) }
{
    let object = known.object as usize;
    if known.held && object < board.len() && board[object].is_none() {
        board[object] = Some(Held {
            frame: known.frame,
            index: known.index,
            cache: known.cache,
            worker: Some(worker),
        });
    }
}

/// Counts the objects of each cache.
pub fn count_live(board: &[Option<Held>], live: &mut [u64])
    requires { length board.now ≤ 1048577 }
    ensures { (cache : ℕ) → cache < length live.old → slice_index_or live.new cache 0 ≡ sum_by (held_of cache) board.now }
{
    live.fill(0);
    for held in board {
        if let Some(held) = held {
            let cache = usize::from(held.cache);
            if cache < live.len() {
                live[cache] += 1;
            }
        }
    }
}
