//! Stops of a server, as lines say them.

use super::call::Seat;
use linda_disk::Torn;
use linda_test_script::{WordsFault, read_number, read_size, read_small_number, split_word};
use linda_world::WorldEvent;
use std::alloc::Global;

/// The ways to crash.
const EACH: [Torn; 5] = [
    Torn::Kept,
    Torn::Lost,
    Torn::Filled(0),
    Torn::Filled(1),
    Torn::Filled(0xff),
];

/// The stop that the words say, for the world that has this place.
pub fn stop_of(alloc: Global, words: &str, seat: Seat) -> Result<WorldEvent, WordsFault> {
    let (what, (at, torn)) = match words.split_once(" at ") {
        Some((what, moments)) => (what, moment_of(alloc, moments, seat)?),
        None => (words, (0, Torn::Lost)),
    };
    match what.strip_prefix("snapshot ") {
        Some(server) => {
            let server = read_small_number(server)?;
            Ok(WorldEvent::StopSnapshot { server, at, torn })
        }
        None => stop_with(alloc, what, at, torn),
    }
}

// The stop at this moment of the server that the words say, with the packets in hand that they say.
fn stop_with(alloc: Global, words: &str, at: u64, torn: Torn) -> Result<WorldEvent, WordsFault> {
    let (server, packets) = match words.split_once(" with ") {
        Some((server, packets)) => (server, packets),
        None => (words, ""),
    };
    Ok(WorldEvent::Stop {
        server: read_small_number(server)?,
        packets: packets_of(alloc, packets)?,
        at,
        torn,
    })
}

// The moment of the stop in the world that has this place: the one moment for all of them, or that
// of its place.
fn moment_of(alloc: Global, words: &str, seat: Seat) -> Result<(u64, Torn), WordsFault> {
    let mut moments = Vec::new(alloc);
    for part in words.split(',') {
        push_moments(&mut moments, part.trim())?;
    }
    let moment = match moments.as_slice() {
        [only] => Some(only),
        all if all.len() == seat.worlds => all.get(seat.place),
        _ => None,
    };
    match moment {
        Some(moment) => Ok(*moment),
        None => Err(WordsFault::Unknown),
    }
}

// Appends a device call with a way to crash, or with each.
fn push_moments(moments: &mut Vec<(u64, Torn)>, words: &str) -> Result<(), WordsFault> {
    let (call, way) = split_word(words);
    let call = read_number(call)?;
    if way == "each" {
        for torn in EACH {
            moments.push((call, torn))?;
        }
        Ok(())
    } else {
        Ok(moments.push((call, torn_of(way)?))?)
    }
}

fn torn_of(way: &str) -> Result<Torn, WordsFault> {
    match way {
        "kept" => Ok(Torn::Kept),
        "lost" => Ok(Torn::Lost),
        "00" => Ok(Torn::Filled(0)),
        "01" => Ok(Torn::Filled(1)),
        "ff" => Ok(Torn::Filled(0xff)),
        _ => Err(WordsFault::Unknown),
    }
}

// The numbers of packets, or so many times one; none if there are no words.
fn packets_of(alloc: Global, words: &str) -> Result<Vec<usize>, WordsFault> {
    if let Some((count, packet)) = words.split_once(" of ") {
        return repeated(alloc, read_size(packet)?, read_size(count)?);
    }
    let mut packets = Vec::new(alloc);
    for packet in words.split_whitespace() {
        packets.push(read_size(packet)?)?;
    }
    Ok(packets)
}

fn repeated(alloc: Global, packet: usize, count: usize) -> Result<Vec<usize>, WordsFault> {
    let mut packets = Vec::new(alloc);
    for _ in 0..count {
        packets.push(packet)?;
    }
    Ok(packets)
}
