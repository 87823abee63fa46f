//! Runs the vectors of records on standard input, one a line: `form KIND ITEMS` forms a record and prints its packet,
//! `read KIND PACKET` reads a packet, as number 7, and prints its items; or the refusal.
#![tactic(auto)]

mod kinds;
mod words;

use crate::kinds::Spelled;
use crate::words::packet_in;
use label::label::LabelItems;
use orbit::items::OrbitItems;
use record::lawful::Lawful;
use record::packing::{pack, unpack};
use station::clock::items::ClockItems;
use station::ramp::items::RampItems;
use std::alloc::Global;
use std::io::{BufRead, BufReader};

/// The packet of a record, or the refusal.
fn form<I: Spelled>(heap: Global, words: &[&str]) -> anyhow::Result<String> {
    Ok(match Lawful::new(I::from_words(words)) {
        Ok(record) => hex::encode(heap, pack(&record))?,
        Err(fault) => format!(in heap; "{fault}")?,
    })
}

/// The items in a packet, or the refusal.
fn read<I: Spelled>(heap: Global, words: &[&str]) -> anyhow::Result<String> {
    Ok(match unpack::<I>(&packet_in(words), 7) {
        Ok(record) => record.items().text(heap)?,
        Err(fault) => format!(in heap; "{fault}")?,
    })
}

/// The answer to a line about one kind.
fn answer<I: Spelled>(heap: Global, words: &[&str]) -> anyhow::Result<String> {
    match words {
        ["form", ..] => form::<I>(heap, words),
        _ => read::<I>(heap, words),
    }
}

fn run(rt: &HostRuntime) -> anyhow::Result<()> {
    let heap = rt.alloc();
    for line in BufReader::new(heap, rt.stdin())?.lines(heap) {
        let line = line?;
        let words: Vec<&str> = line.as_str().split(' ').collect(heap)?;
        let words = words.as_slice();
        // A word of the line picks the type, so an arm for each is left.
        let answer = match words {
            [_, "orbit", ..] => answer::<OrbitItems>(heap, words)?,
            [_, "ramp", ..] => answer::<RampItems>(heap, words)?,
            [_, "clock", ..] => answer::<ClockItems>(heap, words)?,
            _ => answer::<LabelItems>(heap, words)?,
        };
        println!(rt; "{answer}")?;
    }
    Ok(())
}

fn main(rt: HostRuntime) -> anyhow::Result<()> {
    run(&rt)
}
