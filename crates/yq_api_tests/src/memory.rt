//! Memory that is refused, growth by growth.

use std::alloc::Global;

/// How many bytes are in the smallest block, which is no more than any growth takes.
const SMALLEST: usize = 24;

/// The room that smallest blocks take at last: more than most calls need.
const ROOM: usize = 3 << 15;

/// Adds blocks of a size until memory is refused.
fn hold_blocks(alloc: Global, held: &mut Vec<Vec<u8>>, size: usize) {
    'blocks: for _ in 0..1u32 << 20 {
        match Vec::with_capacity(alloc, size) {
            Ok(block) => {
                if held.push(block).is_err() {
                    return;
                }
            }
            Err(_) => return,
        }
    }
}

/// Adds blocks that hold all of the process's memory, of all sizes that an allocator keeps apart, and last
/// many smallest ones. With each of these that is given back, the first growth of a call that is refused is
/// the same one or the next.
pub fn hold_memory(alloc: Global, held: &mut Vec<Vec<u8>>) {
    let first = held.len();
    match Vec::with_capacity(alloc, ROOM) {
        Ok(room) => {
            if held.push(room).is_err() {
                return;
            }
        }
        Err(_) => hold_blocks(alloc, held, SMALLEST),
    }
    let mut size = 1usize << 34;
    'sizes: for _ in 0..128u32 {
        hold_blocks(alloc, held, size);
        size = if size > 1024 {
            size / 2
        } else {
            size.saturating_sub(16).max(16)
        };
    }
    if let Some(room) = held.as_mut_slice().get_mut(first)
        && room.capacity() >= ROOM
    {
        *room = Vec::new(alloc);
    }
    hold_blocks(alloc, held, SMALLEST);
}
