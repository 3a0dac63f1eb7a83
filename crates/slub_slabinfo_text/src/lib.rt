//! What was done (the journal), what of it is lawful on the lists, and every printed byte,
//! `/proc/slabinfo` among it.
//!
//! - The journal: `journal` has what came of each item of a trace, `client` what the lines of
//!   clients were answered. `specs/Lawful.antt` says what an item lawfully does to the lists (a
//!   creation, a round in the order of the text, each item that isn't a client's line), and where
//!   the lists stand before it; `slub_law_replay` says which journals are lawful for a trace.
//!   `specs/Asked.antt` says which rounds clients' lines ask and what a reply tells them, `Classes`
//!   the classes of sizes (`kmalloc_info`), `Bulk` the order of a bulk free
//!   (`build_detached_freelist`); `slub_rounds` says what each line does.
//! - slabinfo: `counts` has what it says of a cache, and `specs/Counts.antt` what that is of a
//!   machine (`get_slabinfo`).
//! - Texts, to the byte: `text` writes replies, items, layouts, slabinfo and the total
//!   (`specs/Texts.antt`), each line with its line feed; `journal_text` and `client_text` make the
//!   lines of items, of damages, of the total and of clients; `names` has the names of a trace.
//!   `specs/Text.antt` says which text a journal has.
//! - Writing an item's text: `item`. `make` makes what is to be made before a byte of the item is
//!   written (`specs/Made.antt`: the whole text, but of a round that of its damages alone), and
//!   `write` writes it. The lines of a round's replies come first, and `replies` makes each in one
//!   buffer, which is used again, when those before it are written.
//!
//! Nothing here knows a machine's bodies: an answer is made into text whoever gave it.
//!
//! # What it promises
//!
//! The texts of replies, damages, items, slabinfo, layouts and the total, and the lines of what
//! items, clients' among them, damages and the total say, with or without those that `--replies`
//! asks for.
//!
//! `make` makes this text, or finds no memory. `write` takes no memory: it writes the text that
//! `text_at` gives the item, byte by byte, or a front of it that isn't the whole, and then a write
//! failed.
#![tactic(auto)]

pub mod client;
pub mod client_text;
pub mod counts;
pub mod item;
pub mod journal;
pub mod journal_text;
mod made;
pub mod names;
mod replies;
pub mod text;
