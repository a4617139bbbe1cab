//! Memory that is used up.

use std::alloc::{AllocError, Global};

// How many blocks are taken at most.
const BLOCKS: usize = 100_000;

// The size of the first block that is asked for, which is more than there is.
const LARGEST: usize = 1 << 40;

// The size of a block that the allocator takes from its heap, and does not ask of the system by itself.
const RESERVE: usize = 100_000;

// How many such blocks are kept for making what a case takes. Small blocks that a run gives back stay where they were,
// in lists of the allocator, and the next run's memory has to lie behind them.
const RESERVES: usize = 8;

// A block that is too large for the lists of small blocks that the allocator keeps when they are freed.
const PAD: usize = 4096;

// The least by which two blocks of the allocator differ.
const PIECE: usize = 16;

// The size of the largest block that goes into the lists of small ones, each for one size.
const SMALL: usize = 1040;

// The size of the blocks to ask for once there is none of this size: half of it, or, where each size has a list of its
// own, the next one.
fn next_size(size: usize) -> usize {
    if size > SMALL {
        size / 2
    } else {
        size.saturating_sub(PIECE)
    }
}

// Takes blocks, each as large as can be had, until not a byte is left.
fn drain(alloc: Global, blocks: &mut Vec<Vec<u8>>, largest: usize) {
    let mut size = largest;
    for _ in 0..BLOCKS {
        if size == 0 || blocks.len() == blocks.capacity() {
            return;
        }
        match Vec::with_capacity(alloc, size) {
            Ok(block) => {
                if blocks.push(block).is_err() {
                    return;
                }
            }
            Err(_) => size = next_size(size),
        }
    }
}

// Blocks of the heap, each behind the one before.
fn reserve(alloc: Global) -> Result<Vec<Vec<u8>>, AllocError> {
    let mut blocks = Vec::with_capacity(alloc, RESERVES)?;
    for _ in 0..RESERVES {
        let block = Vec::with_capacity(alloc, RESERVE)?;
        if blocks.push(block).is_err() {
            return Err(AllocError);
        }
    }
    Ok(blocks)
}

/// Memory of this process that is used up, but for a reserve in which a run makes what it takes. Dropping it gives all
/// memory back.
///
/// It counts on an allocator that takes blocks by halves of a size of its own, as glibc's does, and on a system that
/// gives memory out before it is touched. Nothing is touched, so that it takes no time and no memory to speak of.
#[derive(Drop)]
pub struct Shortage {
    large: Vec<Vec<u8>>,
    small: Vec<Vec<u8>>,
    fence: Vec<u8>,
    pad: Option<Vec<u8>>,
}

impl Shortage {
    /// Uses up all memory but the reserve.
    pub fn new(alloc: Global) -> Result<Shortage, AllocError> {
        let mut large = Vec::with_capacity(alloc, BLOCKS)?;
        let small = Vec::with_capacity(alloc, BLOCKS)?;
        let reserve = reserve(alloc)?;
        // keeps the reserve from growing into what lies behind it
        let fence = Vec::with_capacity(alloc, PAD)?;
        drain(alloc, &mut large, LARGEST);
        drop(reserve);
        Ok(Shortage {
            large,
            small,
            fence,
            pad: None,
        })
    }

    /// Uses up what is left of the reserve, but for so many pieces of 16 bytes.
    pub fn leave(&mut self, alloc: Global, pieces: usize) -> Result<(), AllocError> {
        let left = pieces.saturating_mul(PIECE);
        let kept: Vec<u8> = Vec::with_capacity(alloc, PAD.saturating_add(left))?;
        drain(alloc, &mut self.small, RESERVE);
        drop(kept);
        self.pad = Some(Vec::with_capacity(alloc, PAD)?);
        Ok(())
    }

    /// Gives the reserve back.
    pub fn restore(&mut self) {
        self.pad = None;
        self.small.clear();
    }
}
