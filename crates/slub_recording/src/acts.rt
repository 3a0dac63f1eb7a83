//! The values of events.

ghost use Rattle.std.specs.Prelude.{◌≡◌};
ghost use Rattle.slub_recording.specs.Acts.{Answers, AnswersOr, needed, size_of, real_of, pointer_of, has_flag, row_of, cache_alloc_of, kmalloc_of, cache_free_of, kfree_of, act_of};
ghost use Rattle.slub_recording.specs.Words.{words};

use crate::event::{Key, KmallocKind, KmemKind};
use crate::excerpt::Excerpt;
use crate::fault::{LineFault, Stop};
use crate::line::SaidAct;
use crate::numbers::{hex, short};
use crate::site::Site;
use crate::titles::name;
use crate::words::{after, cut, field};
use std::alloc::Global;

/// The value of an event's `KEY=`.
#[tactic(auto, unfolding(crate::specs::Acts::needed))]
fn need(kind: KmemKind, key: Key, bytes: &[u8]) -> Result<&[u8], LineFault>
    ensures { Answers (λ value. value.now) result (needed kind key (words bytes.now)) }
{
    match field(bytes, key.text()) {
        Some(value) => Ok(value),
        None => Err(LineFault::Without { kind, key }),
    }
}

/// A size in bytes.
#[tactic(auto, unfolding(crate::specs::Acts::size_of))]
fn size(kind: KmemKind, word: &[u8]) -> Result<u32, LineFault>
    ensures { Answers (λ n. n) result (size_of kind word.now) }
{
    match short(word) {
        Some(n) => Ok(n),
        None => Err(LineFault::BadSize { kind }),
    }
}

/// The number of hexadecimal digits, with `0x` in front or not.
#[tactic(auto, unfolding(crate::specs::Acts::real_of))]
fn real(word: &[u8]) -> Option<u64>
    ensures { result ≡ real_of word.now }
{
    match after(word, b"0x") {
        Some(digits) => hex(digits),
        None => hex(word),
    }
}

/// A pointer, as printed.
#[tactic(auto, unfolding(crate::specs::Acts::pointer_of))]
fn pointer(word: &[u8]) -> Result<u64, LineFault>
    ensures { Answers (λ n. n) result (pointer_of word.now) }
{
    if word == b"(nil)".as_slice() {
        return Ok(0);
    }
    if word == b"(____ptrval____)".as_slice() {
        return Err(LineFault::Unhashed);
    }
    match real(word) {
        Some(n) => Ok(n),
        None => Err(LineFault::BadPointer {
            text: Excerpt::new(word),
        }),
    }
}

/// Whether a flag is one of those that `|` joins.
fn is_flag(flag: &[u8], flags: &[u8]) -> bool
    ensures { result ≡ has_flag flag.now flags.now }
{
    let mut rest = flags;
    while let Some((part, behind)) = cut(rest, b'|') {
        if flag == part {
            return true;
        }
        rest = behind;
    }
    flag == rest
}

/// The row of the caches by size that served a `kmalloc`.
#[tactic(auto, unfolding(crate::specs::Acts::row_of))]
fn row(flags: &[u8], accounted: &[u8]) -> KmallocKind
    ensures { result ≡ row_of flags.now accounted.now }
{
    if is_flag(b"GFP_DMA", flags) {
        return KmallocKind::Dma;
    }
    if is_flag(b"__GFP_RECLAIMABLE", flags) {
        return KmallocKind::Reclaimable;
    }
    if accounted == b"true".as_slice() {
        return KmallocKind::Accounted;
    }
    KmallocKind::Normal
}

#[tactic(auto, unfolding(crate::specs::Acts::cache_alloc_of))]
fn cache_alloc(alloc: Global, bytes: &[u8]) -> Result<(u64, SaidAct), Stop>
    ensures { AnswersOr (λ x. x) result (cache_alloc_of (words bytes.now)) }
{
    let kind = KmemKind::CacheAlloc;
    let text = need(kind, Key::CallSite, bytes)?;
    let word = need(kind, Key::Ptr, bytes)?;
    let req = need(kind, Key::BytesReq, bytes)?;
    let total = need(kind, Key::BytesAlloc, bytes)?;
    let asked = size(kind, req)?;
    let slot = size(kind, total)?;
    let pointer = pointer(word)?;
    let site = Site::new(alloc, text)?;
    Ok((pointer, SaidAct::CacheAlloc { asked, slot, site }))
}

#[tactic(auto, unfolding(crate::specs::Acts::kmalloc_of))]
fn kmalloc(bytes: &[u8]) -> Result<(u64, SaidAct), Stop>
    ensures { AnswersOr (λ x. x) result (kmalloc_of (words bytes.now)) }
{
    let kind = KmemKind::Kmalloc;
    let word = need(kind, Key::Ptr, bytes)?;
    let total = need(kind, Key::BytesAlloc, bytes)?;
    let flags = need(kind, Key::GfpFlags, bytes)?;
    let accounted = need(kind, Key::Accounted, bytes)?;
    let slot = size(kind, total)?;
    let pointer = pointer(word)?;
    let kind = row(flags, accounted);
    Ok((pointer, SaidAct::Kmalloc { slot, kind }))
}

#[tactic(auto, unfolding(crate::specs::Acts::cache_free_of))]
fn cache_free(bytes: &[u8]) -> Result<(u64, SaidAct), Stop>
    ensures { AnswersOr (λ x. x) result (cache_free_of (words bytes.now)) }
{
    let kind = KmemKind::CacheFree;
    let word = need(kind, Key::Ptr, bytes)?;
    let title = need(kind, Key::Name, bytes)?;
    let pointer = pointer(word)?;
    let name = name(title);
    Ok((pointer, SaidAct::CacheFree { name }))
}

#[tactic(auto, unfolding(crate::specs::Acts::kfree_of))]
fn kfree(bytes: &[u8]) -> Result<(u64, SaidAct), Stop>
    ensures { AnswersOr (λ x. x) result (kfree_of (words bytes.now)) }
{
    let word = need(KmemKind::Kfree, Key::Ptr, bytes)?;
    let pointer = pointer(word)?;
    Ok((pointer, SaidAct::Kfree))
}

/// The pointer and the act of an event.
pub(crate) fn act(alloc: Global, kind: KmemKind, bytes: &[u8]) -> Result<(u64, SaidAct), Stop>
    ensures { AnswersOr (λ x. x) result (act_of kind (words bytes.now)) }
{
    match kind {
        KmemKind::CacheAlloc => cache_alloc(alloc, bytes),
        KmemKind::Kmalloc => kmalloc(bytes),
        KmemKind::CacheFree => cache_free(bytes),
        KmemKind::Kfree => kfree(bytes),
    }
}
