// Memory that is set aside.
ghost use Rattle.std.specs.Prelude.{◌≡◌, ◌≤◌, ◌+◌, ◌/◌, [], true, length, IfOk, if◌then◌else◌};
ghost use Rattle.mgs_journal.specs.SetAside.{AreBlocks, IsAllSetAside};
ghost use Rattle.mgs_journal.specs.declared.room.TheConstants.{BLOCK};

use std::alloc::{AllocError, Global};
use std::marker::Model;

// The size of a block, in bytes.
const BLOCK: usize = 1 << 18;

/// Memory that is set aside for a time when there is no other, in blocks. Nothing is written there.
#[derive(Drop)]
pub struct Room {
    alloc: Global,
    // How many blocks are to be set aside.
    wanted: usize,
    blocks: Vec<Vec<u8>>,
}

impl Model for Room {
    ghost use Rattle.mgs_journal.specs.SetAside.{SetAside, IsSetAside};

    ghost Value = { SetAside };

    ghost view = { λ r. record { wanted = r.wanted; blocks = r.blocks.items } };

    ghost invariant = { λ r. IsSetAside (record { wanted = r.wanted; blocks = r.blocks.items }) };
}

// Sets one block aside, unless memory is refused. Whether it did.
fn push_block(alloc: Global, blocks: &mut Vec<Vec<u8>>) -> bool
    requires { AreBlocks blocks.old.items }
    ensures each { AreBlocks blocks.new.items }
    ensures more { length blocks.new.items ≡ (if result then length blocks.old.items + 1 else length blocks.old.items) }
{
    let Ok(block) = Vec::with_capacity(alloc, BLOCK) else {
        return false;
    };
    blocks.push(block).is_ok()
}

// Sets blocks aside up to so many, until memory is refused. Whether all are.
fn fill(alloc: Global, blocks: &mut Vec<Vec<u8>>, wanted: usize) -> bool
    requires each { AreBlocks blocks.old.items }
    requires most { length blocks.old.items ≤ wanted }
    ensures each { AreBlocks blocks.new.items }
    ensures kept { length blocks.old.items ≤ length blocks.new.items }
    ensures most { length blocks.new.items ≤ wanted }
    ensures all { result ≡ true → length blocks.new.items ≡ wanted }
{
    while blocks.len() < wanted {
        if !push_block(alloc, blocks) {
            return false;
        }
    }
    true
}

impl Room {
    /// Sets so many bytes aside, of which a part of a block is left out.
    ///
    /// # Errors
    ///
    /// `AllocError` where memory is refused.
    pub fn new(alloc: Global, size: usize) -> Result<Room, AllocError>
        ensures wanted { IfOk result (λ room. room.wanted ≡ size / BLOCK) }
        ensures all { IfOk result IsAllSetAside }
    {
        let wanted = size / BLOCK;
        let mut blocks = Vec::with_capacity(alloc, wanted)?;
        if !fill(alloc, &mut blocks, wanted) {
            return Err(AllocError);
        }
        Ok(Room {
            alloc,
            wanted,
            blocks,
        })
    }

    /// Gives the memory back, for others to take.
    pub fn lend(&mut self)
        ensures { self.new ≡ record self.old { blocks = [] } }
    {
        self.blocks.clear();
    }

    /// Sets the memory aside again, as much of it as there is. Whether all of it is.
    pub fn take_back(&mut self) -> bool
        ensures wanted { self.new.wanted ≡ self.old.wanted }
        ensures kept { length self.old.blocks ≤ length self.new.blocks }
        ensures all { result ≡ true → IsAllSetAside self.new }
    {
        fill(self.alloc, &mut self.blocks, self.wanted)
    }
}
