//! The ground of durability: what a crash may leave of a file, said once, and a disk in memory that
//! can do all of it.
//!
//! `Disk` says of each call what a read gives after it and what a crash may leave after it, in the
//! words of `specs/View`, `specs/Image` and `specs/Disk`; the README beside this folder holds them
//! against the model of a disk. `MemDisk` meets it, and comes out of a crash in each of the three
//! ways of `Torn`. `FileDisk` is a file of the operating system, of which it keeps a record
//! of what it read and of its calls.
#![tactic(auto)]

mod call;
mod disk;
mod disk_history;
mod fault;
mod file_disk;
mod file_state;
mod file_trouble;
mod lengthened;
mod mem_disk;
mod overlay;
mod past;
mod redo;
mod synced;
mod torn;
mod trouble;
mod turn;

pub use disk::Disk;
pub use fault::DiskFault;
pub use file_disk::FileDisk;
pub use file_trouble::{FileCall, FileTrouble};
pub use lengthened::lengthen;
pub use mem_disk::MemDisk;
pub use synced::write_synced;
pub use torn::Torn;
