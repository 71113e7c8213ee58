//! Names, as a text spells them.

ghost use Rattle.std.specs.Prelude.{◌≡◌, ◌<◌, length};
ghost use Rattle.std.specs.Int.{from_le_bytes, w64};
ghost use Rattle.text_values.specs.Names.{key_of, key_bytes_behind};

use crate::letters::byte_at;
use std::alloc::{AllocError, Global};
use std::marker::Model;

// As many bytes are kept in place. With four bytes for the length they stand so that a name is
// moved in whole words: what is moved in words that overlap is slow to read again.
const SHORT: usize = 16;

// Where the bytes of a name are: in place as far as the length says, or in an allocation.
#[derive(Drop)]
enum Bytes {
    Short(u32, [u8; SHORT]),
    Long(Box<Vec<u8>>),
}

/// A name, which contracts see as its bytes. A short one takes no memory of its own.
pub struct Name {
    bytes: Bytes,
}

impl Drop for Name {
    fn drop(self) {
        let Name { bytes: _ } = self;
    }
}

impl Model for Name {
    ghost use Rattle.std.specs.Prelude.{List, ℕ};
    ghost use Rattle.text_values.specs.Names.{name_bytes, IsSoundName};

    ghost Value = { List ℕ };

    ghost view = { λ n. name_bytes n.bytes };

    ghost invariant = { λ n. IsSoundName n.bytes };
}

// The key of a name with these bytes.
#[inline(never)]
fn key_of(bytes: &[u8]) -> u64
    ensures { result ≡ key_of bytes.now }
{
    u64::from_le_bytes([
        bytes.len().min(255) as u8,
        byte_at(bytes, 0),
        byte_at(bytes, 1),
        byte_at(bytes, 2),
        byte_at(bytes, 3),
        byte_at(bytes, 4),
        byte_at(bytes, 5),
        byte_at(bytes, 6),
    ])
}

// The key of a name of so many bytes that is kept in place. Its first eight bytes are read at once.
#[inline(always)]
fn short_key(n: u32, short: &[u8; SHORT]) -> u64
    ensures key { n < 256 → result ≡ from_le_bytes w64 (key_bytes_behind n short.now) }
    ensures room { length short.now ≡ 16 }
{
    let first = u64::from_le_bytes([
        short[0], short[1], short[2], short[3], short[4], short[5], short[6], short[7],
    ]);
    first.wrapping_mul(256).wrapping_add(u64::from(n))
}

impl Name {
    ghost use Rattle.std.specs.Prelude.{◌≡◌, ◌↔◌, IfOk, IsTrue};
    ghost use Rattle.text_values.specs.Names.{key_of};

    /// The name with these bytes. Errors: out of memory.
    pub fn new(alloc: Global, text: &[u8]) -> Result<Name, AllocError>
        ensures { IfOk result (λ n. n ≡ text.now) }
    {
        if text.len() > SHORT {
            let long = Box::new(alloc, Vec::from_slice(alloc, text)?)?;
            return Ok(Name {
                bytes: Bytes::Long(long),
            });
        }
        let mut short = [0; SHORT];
        short[..text.len()].copy_from_slice(text);
        Ok(Name {
            bytes: Bytes::Short(text.len() as u32, short),
        })
    }

    /// The bytes of the name.
    pub fn as_bytes(&self) -> &[u8]
        ensures { result.now ≡ self.now }
    {
        match &self.bytes {
            Bytes::Short(length, short) => &short[..*length as usize],
            Bytes::Long(long) => long.as_slice(),
        }
    }

    /// The length and the first bytes of the name as one number: names with different keys are
    /// different.
    #[inline(always)]
    pub fn key(&self) -> u64
        ensures { result ≡ key_of self.now }
    {
        match &self.bytes {
            Bytes::Short(length, short) => short_key(*length, short),
            Bytes::Long(long) => key_of(long.as_slice()),
        }
    }

    /// A copy of the name. Errors: out of memory.
    pub fn copied(&self, alloc: Global) -> Result<Name, AllocError>
        ensures { IfOk result (λ n. n ≡ self.now) }
    {
        match &self.bytes {
            Bytes::Short(length, short) => Ok(Name {
                bytes: Bytes::Short(*length, *short),
            }),
            Bytes::Long(long) => Name::new(alloc, long.as_slice()),
        }
    }

    /// Whether both names have the same bytes.
    pub fn is_same(&self, other: &Name) -> bool
        ensures { IsTrue result ↔ (self.now ≡ other.now) }
    {
        self.as_bytes() == other.as_bytes()
    }
}
