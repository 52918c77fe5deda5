//! The memory that a server keeps for the next messages.

use std::alloc::Global;

/// The size of the block in bytes. The C library takes note of blocks of up to 32 MiB. Twice as
/// much is kept at most, at the end of each of a few heaps.
const BLOCK: usize = 4_190_208;

/// Has memory that is free kept for what comes next. By itself the C library gives the end of a
/// heap back to the system once 128 KiB are free there, which a server with many messages would pay
/// for with each group; but if a block is freed that was mapped by itself, that limit becomes twice
/// its size, as mallopt(3) has it under `M_MMAP_THRESHOLD`. So one such block is made and dropped,
/// and not used. It takes no memory that is touched; if there is none for it all is as before.
pub(super) fn keep_heap(alloc: Global) {
    let block: Result<Vec<u8>, _> = Vec::with_capacity(alloc, BLOCK);
    drop(block);
}
