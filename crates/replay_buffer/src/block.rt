//! A block of bytes.

ghost use Rattle.std.specs.Prelude.{◌≡◌, ◌+◌, ◌≤◌, ◌++◌, [], length, IfOk};
ghost use Rattle.replay_buffer.specs.declared.block.TheConstants.{BLOCK};

use rs_wire::OutOfMemory;
use std::alloc::Global;
use std::marker::Model;

/// How many bytes a block has room for. Of the blocks that bytes lie in two are not full: the oldest,
/// whose first bytes may be gone, and the newest.
pub const BLOCK: usize = 16_384;

/// A block of memory, which is written to from its beginning to its end. Contracts see its bytes.
#[derive(Debug, Drop)]
pub struct Block {
    bytes: Vec<u8>,
}

impl Model for Block {
    ghost use Rattle.std.specs.Prelude.{List, ℕ};

    ghost Value = { List ℕ };

    ghost view = { λ b. b.bytes.items };

    ghost use Rattle.std.specs.Prelude.{◌≤◌, vec_capacity};
    ghost use Rattle.replay_buffer.specs.declared.block.TheConstants.{BLOCK};

    ghost invariant = { λ b. BLOCK ≤ vec_capacity b.bytes };
}

impl Block {
    /// Nothing was written to it.
    pub fn new(alloc: Global) -> Result<Block, OutOfMemory>
        ensures { IfOk result (λ block. block ≡ []) }
    {
        Ok(Block {
            bytes: Vec::with_capacity(alloc, BLOCK)?,
        })
    }

    /// How many bytes were written to it.
    pub fn len(&self) -> usize
        ensures { result ≡ length self.now }
    {
        self.bytes.len()
    }

    /// The bytes that were written to it.
    pub fn as_slice(&self) -> &[u8]
        ensures { result.now ≡ self.now }
    {
        self.bytes.as_slice()
    }

    /// Appends the bytes, for which there is room.
    pub fn put(&mut self, bytes: &[u8])
        requires { length self.old + length bytes.now ≤ BLOCK }
        ensures { self.new ≡ self.old ++ bytes.now }
    {
        let _room = self.bytes.extend_from_slice(bytes);
    }
}
