//! Tuples may cross threads, also those that share their memory.

use crate::tuple::Tuple;

fn wants<T: Send + Sync>(_x: &T) {}

/// A tuple may cross threads, while copies that share its memory are in others.
pub fn tuple_crosses(tuple: &Tuple) {
    wants(tuple);
}
