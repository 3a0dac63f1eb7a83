//! Words and numbers behind a text.

ghost use Rattle.std.specs.Prelude.{◌≡◌, ◌++◌, OnOk};
ghost use Rattle.std.specs.Fmt.{decimal, signed_decimal};

use itoa::Buffer;
use slub_common::no_memory::NoMemory;

/// Words.
pub fn put(text: &mut Vec<u8>, words: &[u8]) -> Result<(), NoMemory>
    ensures { OnOk result (text.new.items ≡ text.old.items ++ words.now) }
{
    text.extend_from_slice(words)?;
    Ok(())
}

/// A number.
pub fn put_number(text: &mut Vec<u8>, n: u64) -> Result<(), NoMemory>
    ensures { OnOk result (text.new.items ≡ text.old.items ++ decimal n) }
{
    put(text, Buffer::new().format(n).as_bytes())
}

/// A number with its sign, if it is below 0.
pub fn put_signed(text: &mut Vec<u8>, n: i32) -> Result<(), NoMemory>
    ensures { OnOk result (text.new.items ≡ text.old.items ++ signed_decimal n) }
{
    put(text, Buffer::new().format(n).as_bytes())
}
