//! The writer.
ghost use Rattle.std.specs.Prelude.{◌≡◌, ◌++◌, ◌∷◌, [], OnOk, OnErr, length, ◌<◌, ◌^◌};
ghost use Rattle.cw_bytes.specs.Spelling.{word, long, text, IsText};

use std::alloc::{AllocError, Global};
use std::marker::Model;

// Room for so many bytes is made at once, so that a short field or body doesn't grow step by step.
pub(crate) const SHORT: usize = 64;

/// Writes fields one behind the other. After want of memory it has the bytes that it had.
#[derive(Debug, Drop)]
pub struct Writer {
    alloc: Global,
    bytes: Vec<u8>,
}

impl Model for Writer {
    ghost use Rattle.std.specs.Prelude.{List, ℕ};

    ghost Value = { List ℕ };

    ghost view = { λ a. a.bytes.items };
}

impl Writer {
    /// With no byte.
    pub fn new(alloc: Global) -> Writer
        ensures { result ≡ [] }
    {
        Writer {
            alloc,
            bytes: Vec::new(alloc),
        }
    }

    /// Writes a byte.
    pub fn put_u8(&mut self, value: u8) -> Result<(), AllocError>
        ensures ok { OnOk result (self.new ≡ self.old ++ value ∷ []) }
        ensures err { OnErr result (self.new ≡ self.old) }
    {
        self.bytes.push(value)?;
        Ok(())
    }

    /// Writes a number as four bytes.
    pub fn put_u32(&mut self, value: u32) -> Result<(), AllocError>
        ensures ok { OnOk result (self.new ≡ self.old ++ word value) }
        ensures err { OnErr result (self.new ≡ self.old) }
    {
        add_u32(&mut self.bytes, value)
    }

    /// Writes a number as eight bytes.
    pub fn put_u64(&mut self, value: u64) -> Result<(), AllocError>
        ensures ok { OnOk result (self.new ≡ self.old ++ long value) }
        ensures err { OnErr result (self.new ≡ self.old) }
    {
        add_u64(&mut self.bytes, value)
    }

    /// Writes a text behind its length.
    pub fn put_text(&mut self, bytes: &[u8]) -> Result<(), AllocError>
        requires { IsText bytes.now }
        ensures ok { OnOk result (self.new ≡ self.old ++ text bytes.now) }
        ensures err { OnErr result (self.new ≡ self.old) }
    {
        let mut field = Vec::with_capacity(self.alloc, bytes.len())?;
        add_text(&mut field, bytes)?;
        self.put(field.as_slice())
    }

    // Writes a whole field.
    pub(crate) fn put(&mut self, field: &[u8]) -> Result<(), AllocError>
        ensures ok { OnOk result (self.new ≡ self.old ++ field.now) }
        ensures err { OnErr result (self.new ≡ self.old) }
    {
        self.bytes.reserve(field.len().max(SHORT))?;
        self.bytes.extend_from_slice(field)
    }

    // The allocator.
    pub(crate) fn alloc(&self) -> Global {
        self.alloc
    }

    /// The bytes.
    pub fn into_bytes(self) -> Vec<u8>
        ensures { result.items ≡ self }
    {
        let Writer { alloc: _, bytes } = self;
        bytes
    }
}

/// A number as four bytes.
#[tactic(auto, unfolding(crate::specs::Spelling::word))]
pub fn add_u32(field: &mut Vec<u8>, value: u32) -> Result<(), AllocError>
    ensures ok { OnOk result (field.new.items ≡ field.old.items ++ word value) }
    ensures err { OnErr result (field.new.items ≡ field.old.items) }
{
    field.extend_from_slice(&value.to_be_bytes())
}

/// A number as eight bytes.
#[tactic(auto, unfolding(crate::specs::Spelling::long))]
pub fn add_u64(field: &mut Vec<u8>, value: u64) -> Result<(), AllocError>
    ensures ok { OnOk result (field.new.items ≡ field.old.items ++ long value) }
    ensures err { OnErr result (field.new.items ≡ field.old.items) }
{
    field.extend_from_slice(&value.to_be_bytes())
}

/// A text behind its length.
#[tactic(auto, unfolding(crate::specs::Spelling::text))]
pub fn add_text(field: &mut Vec<u8>, bytes: &[u8]) -> Result<(), AllocError>
    requires { IsText bytes.now }
    ensures { OnOk result (field.new.items ≡ field.old.items ++ text bytes.now) }
{
    add_u32(field, bytes.len() as u32)?;
    field.extend_from_slice(bytes)
}
