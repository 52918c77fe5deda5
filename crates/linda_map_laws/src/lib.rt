//! Laws of finite maps whose keys are numbers, and of the ordered trees that keep them: what a
//! look-up gives after a change, which maps are equal, how many entries there are, and what a sum
//! over the values gains by an insertion.
//!
//! The values are of any type, so that one law serves tuples, kept replies and whatever else has a
//! number. There is no code here: the laws are in `proofs/`, and the proofs of the crates above
//! cite them.
#![tactic(auto)]
