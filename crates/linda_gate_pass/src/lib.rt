//! A gate before a server: it lets through the frames of one client, which its certificate names.
//!
//! A `ClientGate` is one connection as a machine over bytes, which makes no call. What comes begins
//! with the head that HAProxy sends (`read_head`), by which the certificate's name says which
//! client numbers are allowed. After it a `Pass` reads frames, and passes on those that may.
//! `specs/Passing` says what may pass, `specs/Head` what a head is.
#![tactic(auto)]

mod client_gate;
mod client_numbers;
mod fault;
mod head;
mod pass;
mod passed;

pub use client_gate::ClientGate;
pub use client_numbers::ClientNumbers;
pub use fault::PassFault;
pub use head::{ProxyHead, read_head};
pub use pass::Pass;
