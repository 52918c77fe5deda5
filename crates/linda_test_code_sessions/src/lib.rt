//! Tests of sessions over one server, in one thread: what a session and its neighbours hear, failed
//! allocations, batches, and servers that go down.
#![tactic(auto)]

#[cfg(test)]
mod batches;
#[cfg(test)]
mod disks;
#[cfg(test)]
mod full;
#[cfg(test)]
mod groups;
#[cfg(test)]
mod hostile;
#[cfg(test)]
mod largest;
#[cfg(test)]
mod life;
#[cfg(test)]
mod pacing;
#[cfg(test)]
mod refused;
#[cfg(test)]
mod script;
#[cfg(test)]
mod snapshots;
#[cfg(test)]
mod steps;
#[cfg(test)]
mod stops;
