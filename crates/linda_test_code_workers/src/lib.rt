//! Tests of `run_workers`: workers in threads of their own over one server, by public calls only.
#![tactic(auto)]

#[cfg(test)]
mod jobs;
#[cfg(test)]
mod workers;
