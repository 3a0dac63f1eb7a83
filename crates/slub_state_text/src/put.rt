//! Words, numbers and fields behind a text.

ghost use Rattle.std.specs.Prelude.{◌≡◌, ◌-◌, ◌∷◌, ◌++◌, length, replicate, OnOk};
ghost use Rattle.std.specs.Fmt.{decimal};
ghost use Rattle.slub_state_text.specs.Fields.{cpu_label, field, flag, head_field, label_text, numbered, slab_field, titled};
ghost use Rattle.slub_law_opening.specs.Opening.{head_of};

use itoa::Buffer;
use slub_common::no_memory::NoMemory;
use slub_object_layout::name::Name;

/// Words.
pub(crate) fn put(text: &mut Vec<u8>, words: &[u8]) -> Result<(), NoMemory>
    ensures { OnOk result (text.new.items ≡ text.old.items ++ words.now) }
{
    text.extend_from_slice(words)?;
    Ok(())
}

/// A number.
pub(crate) fn put_number(text: &mut Vec<u8>, n: u32) -> Result<(), NoMemory>
    ensures { OnOk result (text.new.items ≡ text.old.items ++ decimal n) }
{
    put(text, Buffer::new().format(n).as_bytes())
}

/// A space and a word.
fn put_spaced(text: &mut Vec<u8>, word: &[u8]) -> Result<(), NoMemory>
    ensures { OnOk result (text.new.items ≡ text.old.items ++ 32 ∷ word.now) }
{
    put(text, b" ")?;
    put(text, word)
}

/// A space and a number.
pub(crate) fn put_spaced_number(text: &mut Vec<u8>, n: u32) -> Result<(), NoMemory>
    ensures { OnOk result (text.new.items ≡ text.old.items ++ 32 ∷ decimal n) }
{
    put(text, b" ")?;
    put_number(text, n)
}

/// A field: its name and a number.
pub(crate) fn put_field(text: &mut Vec<u8>, name: &[u8], n: u32) -> Result<(), NoMemory>
    ensures { OnOk result (text.new.items ≡ text.old.items ++ field name.now n) }
{
    put_spaced(text, name)?;
    put_spaced_number(text, n)
}

/// A field that is 0 or 1.
pub(crate) fn put_flag(text: &mut Vec<u8>, name: &[u8], is_set: bool) -> Result<(), NoMemory>
    ensures { OnOk result (text.new.items ≡ text.old.items ++ flag name.now is_set) }
{
    put_spaced(text, name)?;
    if is_set {
        put(text, b" 1")
    } else {
        put(text, b" 0")
    }
}

/// A field that is a slab, by its first frame, where 0 stands for none.
pub(crate) fn put_slab_field(text: &mut Vec<u8>, name: &[u8], frame: u16) -> Result<(), NoMemory>
    ensures { OnOk result (text.new.items ≡ text.old.items ++ slab_field name.now frame) }
{
    if frame == 0 {
        put_spaced(text, name)?;
        put(text, b" none")
    } else {
        put_field(text, name, u32::from(frame))
    }
}

/// The field of a freelist's first object.
pub(crate) fn put_head(text: &mut Vec<u8>, free: &[u16]) -> Result<(), NoMemory>
    ensures { OnOk result (text.new.items ≡ text.old.items ++ head_field (head_of free.now)) }
{
    match free {
        [] => put(text, b" head none"),
        [index, ..] => put_field(text, b"head", u32::from(*index)),
    }
}

fn put_spaces(text: &mut Vec<u8>, count: usize) -> Result<(), NoMemory>
    ensures { OnOk result (text.new.items ≡ text.old.items ++ replicate count 32) }
{
    for _ in 0..count {
        text.push(b' ')?;
    }
    Ok(())
}

/// A row's label, in its column.
pub(crate) fn put_label(text: &mut Vec<u8>, label: &[u8]) -> Result<(), NoMemory>
    ensures { OnOk result (text.new.items ≡ text.old.items ++ label_text label.now) }
{
    put(text, b"  ")?;
    put(text, label)?;
    put_spaces(text, 15usize.saturating_sub(label.len()))
}

/// The label of a cache's row and of its node's.
pub(crate) fn put_titled(text: &mut Vec<u8>, word: &[u8], title: &Name) -> Result<(), NoMemory>
    ensures { OnOk result (text.new.items ≡ text.old.items ++ label_text (titled word.now title.now)) }
{
    let mut label = Vec::new(*text.allocator());
    put(&mut label, word)?;
    put_spaced(&mut label, title.as_bytes())?;
    put_label(text, label.as_slice())
}

/// The label of a CPU's row and of its list's.
pub(crate) fn put_cpu_label(
    text: &mut Vec<u8>,
    word: &[u8],
    cpu: u32,
    title: &Name,
) -> Result<(), NoMemory>
    ensures { OnOk result (text.new.items ≡
        text.old.items ++ label_text (cpu_label word.now cpu title.now)) }
{
    let mut label = Vec::new(*text.allocator());
    put(&mut label, word)?;
    put_spaced_number(&mut label, cpu)?;
    put_spaced(&mut label, title.as_bytes())?;
    put_label(text, label.as_slice())
}

/// The label of a slab's row.
pub(crate) fn put_numbered(text: &mut Vec<u8>, word: &[u8], n: u32) -> Result<(), NoMemory>
    ensures { OnOk result (text.new.items ≡ text.old.items ++ label_text (numbered word.now n)) }
{
    let mut label = Vec::new(*text.allocator());
    put(&mut label, word)?;
    put_spaced_number(&mut label, n)?;
    put_label(text, label.as_slice())
}
