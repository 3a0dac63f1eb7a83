//! Taking a client's line.

ghost use Rattle.std.specs.Prelude.{◌≡◌, ◌++◌, ◌<◌, ◌^◌, All, IfOk, OnOk, false, fold, max, nat_eq};
ghost use Rattle.std.specs.List.{list_any};
ghost use Rattle.slub_trace_reader.specs.Above.{after, asked_of, names_below, pools_below, is_kmalloc};
ghost use Rattle.slub_trace_reader.specs.Grammar.{ClientInRange, HasSource};
ghost use Rattle.slub_trace_reader.specs.Numbers.{client_allocates};
ghost use Rattle.slub_trace_reader.specs.State.{above, AreSmall, IsMarked, Keeps, IsFit};

use crate::classes::put_classes;
use crate::client::ClientLine;
use crate::line::Line;
use crate::numbers::allocate;
use crate::objects::Objects;
use crate::state::State;
use indexmap::IndexSet;
use slub_object_layout::name::Name;
use slub_trace::trace::{Client, Item};
use std::alloc::AllocError;

impl State {
    /// Takes a client's line.
    pub(crate) fn take_client(&mut self, line: &ClientLine) -> Result<(), AllocError>
        requires room { self.old.count < 2 ^ 28 }
        requires keeps { Keeps self.old }
        requires fit { IsFit (above self.old) (Line.Client line.now) }
        ensures taken { OnOk result (above self.new ≡ after (above self.old) (Line.Client line.now)) }
        ensures keeps { OnOk result (Keeps self.new) }
    {
        let client = self.asked(line);
        put_names(line, &mut self.names, &mut self.pools)?;
        self.kmalloc = self.kmalloc || is_kmalloc_line(line);
        self.greatest = put_objects(line, &mut self.objects, self.greatest)?;
        self.rounds += 2;
        self.items.push(Item::Client(client))?;
        self.count += 1;
        Ok(())
    }

    /// What a client's line asks, by the places of names.
    fn asked(&self, line: &ClientLine) -> Client
        requires small { self.now.count < 2 ^ 28 }
        requires keeps { Keeps self.now }
        requires range { ClientInRange (above self.now) line.now }
        requires named { HasSource (above self.now) line.now }
        ensures { result ≡ asked_of self.now.names.keys line.now }
    {
        match line {
            ClientLine::Kmalloc => Client::Kmalloc,
            ClientLine::Kget { cpu, size, object } => Client::Kget {
                cpu: self.cpu(*cpu),
                size: *size as u32,
                object: *object as u32,
            },
            ClientLine::Krealloc {
                cpu,
                object,
                size,
                fresh,
            } => Client::Krealloc {
                cpu: self.cpu(*cpu),
                object: *object as u32,
                size: *size as u32,
                fresh: *fresh as u32,
            },
            ClientLine::Bulk {
                cpu,
                name,
                first,
                count,
            } => Client::Bulk {
                cpu: self.cpu(*cpu),
                name: self.find(name),
                first: *first as u32,
                count: *count as u32,
            },
            ClientLine::Bulkfree { cpu, first, count } => Client::Bulkfree {
                cpu: self.cpu(*cpu),
                first: *first as u32,
                count: *count as u32,
            },
            ClientLine::Mempool {
                pool,
                name,
                min,
                first,
            } => Client::Mempool {
                pool: *pool,
                name: self.find(name),
                min: *min as u32,
                first: *first as u32,
            },
            ClientLine::Mget { cpu, pool, object } => Client::Mget {
                cpu: self.cpu(*cpu),
                pool: *pool,
                object: *object as u32,
            },
            ClientLine::Mput { cpu, pool, object } => Client::Mput {
                cpu: self.cpu(*cpu),
                pool: *pool,
                object: *object as u32,
            },
        }
    }
}

/// Whether it is a `kmalloc` line.
fn is_kmalloc_line(line: &ClientLine) -> bool
    ensures { result ≡ is_kmalloc line.now }
{
    matches!(line, ClientLine::Kmalloc)
}

/// Puts the names that a client's line brings: those of the classes, or of its reserve.
fn put_names(
    line: &ClientLine,
    names: &mut IndexSet<Name>,
    pools: &mut IndexSet<Name>,
) -> Result<(), AllocError>
    ensures names { OnOk result (names.new.keys ≡ names_below names.old.keys line.now) }
    ensures pools { OnOk result (pools.new.keys ≡ pools_below pools.old.keys line.now) }
{
    match line {
        ClientLine::Kmalloc => put_classes(names),
        ClientLine::Mempool { pool, .. } => {
            pools.insert(*pool)?;
            Ok(())
        }
        _ => Ok(()),
    }
}

/// Puts the numbers that a client's line may allocate, and answers the greatest of all.
fn put_objects(line: &ClientLine, objects: &mut Objects, greatest: u32) -> Result<u32, AllocError>
    requires range { AreSmall line.now }
    requires marked { IsMarked objects.old }
    requires fresh { All (λ object. list_any (nat_eq object) objects.old.keys ≡ false) (client_allocates line.now) }
    requires greatest { greatest ≡ fold max 0 objects.old.keys }
    ensures put { OnOk result (objects.new.keys ≡ objects.old.keys ++ client_allocates line.now) }
    ensures marked { OnOk result (IsMarked objects.new) }
    ensures greatest { IfOk result (λ greatest. greatest ≡ fold max 0 objects.new.keys) }
{
    match line {
        ClientLine::Kget { object, .. } | ClientLine::Mget { object, .. } => {
            allocate(objects, greatest, *object as u32, 1)
        }
        ClientLine::Krealloc { fresh, .. } => allocate(objects, greatest, *fresh as u32, 1),
        ClientLine::Bulk { first, count, .. } => {
            allocate(objects, greatest, *first as u32, *count as u32)
        }
        ClientLine::Mempool { first, min, .. } => {
            allocate(objects, greatest, *first as u32, *min as u32)
        }
        _ => Ok(greatest),
    }
}
