//! That a durable server may go to another thread, if its disks may: this is checked here, and used
//! above.

use crate::durable::Durable;
use linda_disk::Disk;

// Takes what may go to another thread.
fn wants<T: Send>(_x: &T) {}

/// Checks, only by its bounds, that a server may go to another thread if its disks may.
pub fn server_crosses<D: Disk + Send>(server: &Durable<D>) {
    wants(server);
}
