//! The lines of clients of the allocator.

ghost use Rattle.std.specs.Prelude.{◌≡◌};
ghost use Rattle.slub_trace_reader.specs.Forms.{kmalloc_line, kget_line, krealloc_line, bulk_line, bulkfree_line, mempool_line, mget_line, mput_line, client_line};

use crate::digits::{number, number_field};
use crate::words::{after, name, name_field};
use slub_object_layout::name::Name;

/// A client's line by its form. A number of it may be any, as long as its digits are.
#[derive(Clone, Copy, Debug)]
pub enum ClientLine {
    Kmalloc,
    Kget {
        cpu: u128,
        size: u128,
        object: u128,
    },
    Krealloc {
        cpu: u128,
        object: u128,
        size: u128,
        fresh: u128,
    },
    Bulk {
        cpu: u128,
        name: Name,
        first: u128,
        count: u128,
    },
    Bulkfree {
        cpu: u128,
        first: u128,
        count: u128,
    },
    Mempool {
        pool: Name,
        name: Name,
        min: u128,
        first: u128,
    },
    Mget {
        cpu: u128,
        pool: Name,
        object: u128,
    },
    Mput {
        cpu: u128,
        pool: Name,
        object: u128,
    },
}

/// The client's line that a text says; None where it has none of the forms.
#[tactic(auto, unfolding(crate::specs::Forms::client_line))]
pub(crate) fn client(text: &[u8]) -> Option<ClientLine>
    ensures { result ≡ client_line text.now }
{
    if let Some(line) = kmalloc(text) {
        return Some(line);
    }
    if let Some(line) = kget(text) {
        return Some(line);
    }
    if let Some(line) = krealloc(text) {
        return Some(line);
    }
    if let Some(line) = bulk(text) {
        return Some(line);
    }
    if let Some(line) = bulkfree(text) {
        return Some(line);
    }
    if let Some(line) = mempool(text) {
        return Some(line);
    }
    if let Some(line) = mget(text) {
        return Some(line);
    }
    mput(text)
}

#[tactic(auto, unfolding(crate::specs::Forms::kmalloc_line))]
fn kmalloc(text: &[u8]) -> Option<ClientLine>
    ensures { result ≡ kmalloc_line text.now }
{
    if text == b"kmalloc".as_slice() {
        return Some(ClientLine::Kmalloc);
    }
    None
}

#[tactic(auto, unfolding(crate::specs::Forms::kget_line))]
fn kget(text: &[u8]) -> Option<ClientLine>
    ensures { result ≡ kget_line text.now }
{
    let rest = after(text, b"kget ")?;
    let (cpu, rest) = number_field(rest)?;
    let (size, rest) = number_field(rest)?;
    let object = number(rest)?;
    Some(ClientLine::Kget { cpu, size, object })
}

#[tactic(auto, unfolding(crate::specs::Forms::krealloc_line))]
fn krealloc(text: &[u8]) -> Option<ClientLine>
    ensures { result ≡ krealloc_line text.now }
{
    let rest = after(text, b"krealloc ")?;
    let (cpu, rest) = number_field(rest)?;
    let (object, rest) = number_field(rest)?;
    let (size, rest) = number_field(rest)?;
    let fresh = number(rest)?;
    Some(ClientLine::Krealloc {
        cpu,
        object,
        size,
        fresh,
    })
}

#[tactic(auto, unfolding(crate::specs::Forms::bulk_line))]
fn bulk(text: &[u8]) -> Option<ClientLine>
    ensures { result ≡ bulk_line text.now }
{
    let rest = after(text, b"bulk ")?;
    let (cpu, rest) = number_field(rest)?;
    let Some((name, rest)) = name_field(rest) else {
        return None;
    };
    let (first, rest) = number_field(rest)?;
    let count = number(rest)?;
    Some(ClientLine::Bulk {
        cpu,
        name,
        first,
        count,
    })
}

#[tactic(auto, unfolding(crate::specs::Forms::bulkfree_line))]
fn bulkfree(text: &[u8]) -> Option<ClientLine>
    ensures { result ≡ bulkfree_line text.now }
{
    let rest = after(text, b"bulkfree ")?;
    let (cpu, rest) = number_field(rest)?;
    let (first, rest) = number_field(rest)?;
    let count = number(rest)?;
    Some(ClientLine::Bulkfree { cpu, first, count })
}

#[tactic(auto, unfolding(crate::specs::Forms::mempool_line))]
fn mempool(text: &[u8]) -> Option<ClientLine>
    ensures { result ≡ mempool_line text.now }
{
    let rest = after(text, b"mempool ")?;
    let Some((pool, rest)) = name_field(rest) else {
        return None;
    };
    let Some((name, rest)) = name_field(rest) else {
        return None;
    };
    let (min, rest) = number_field(rest)?;
    let first = number(rest)?;
    Some(ClientLine::Mempool {
        pool,
        name,
        min,
        first,
    })
}

#[tactic(auto, unfolding(crate::specs::Forms::mget_line))]
fn mget(text: &[u8]) -> Option<ClientLine>
    ensures { result ≡ mget_line text.now }
{
    let rest = after(text, b"mget ")?;
    let (cpu, rest) = number_field(rest)?;
    let Some((pool, rest)) = name_field(rest) else {
        return None;
    };
    let object = number(rest)?;
    Some(ClientLine::Mget { cpu, pool, object })
}

#[tactic(auto, unfolding(crate::specs::Forms::mput_line))]
fn mput(text: &[u8]) -> Option<ClientLine>
    ensures { result ≡ mput_line text.now }
{
    let rest = after(text, b"mput ")?;
    let (cpu, rest) = number_field(rest)?;
    let Some((pool, rest)) = name_field(rest) else {
        return None;
    };
    let object = number(rest)?;
    Some(ClientLine::Mput { cpu, pool, object })
}
