// Measures clearing full-sized tables; without the word `measure` it clears each once and says nothing.
#![tactic(auto)]

use document::Node;
use document::limits::{MAX_LINKS, MAX_NODES, MAX_TEXT};
use std::env;
use std::mem::size_of_val;
use std::time::Instant;
use tables::{Empty, clear};

// How much an entry counts for: reading entries between two clearings keeps the compiler from leaving one out.
trait Sample {
    fn sample(&self) -> u32;
}

impl Sample for Node {
    fn sample(&self) -> u32 {
        self.first_link
    }
}

impl Sample for u32 {
    fn sample(&self) -> u32 {
        *self
    }
}

impl Sample for u8 {
    fn sample(&self) -> u32 {
        u32::from(*self)
    }
}

// Clears a table some times over, putting one entry into it and reading one between, and tells the nanoseconds of one time.
fn measured<T: Empty + Copy + Sample>(
    rt: &HostRuntime,
    table: &mut [T],
    entry: T,
    rounds: usize,
    stride: usize,
) -> anyhow::Result<(u64, u32)> {
    let mut sum: u32 = 0;
    let start = Instant::now(rt)?;
    for i in 0..rounds {
        // by index, since which entry is written and read is what is measured; an empty table has none
        let at = i.wrapping_mul(stride);
        if !table.is_empty() {
            table[at % table.len()] = entry;
        }
        clear(table);
        if !table.is_empty() {
            let read = at.wrapping_add(stride) % table.len();
            sum = sum.wrapping_add(table[read].sample());
        }
    }
    let nanos = start.elapsed(rt)?.as_nanos();
    let each = nanos / (rounds as u128 + 1);
    Ok((u64::try_from(each)?, sum))
}

fn main(rt: HostRuntime) -> anyhow::Result<()> {
    let heap = rt.alloc();
    let words = env::args(&rt)?.count();
    let telling = words > 1;
    let rounds = if telling { 20000 } else { 1 };
    let mut nodes = vec![in heap; Node::none(); MAX_NODES]?;
    let mut links = vec![in heap; 0u32; MAX_LINKS]?;
    let mut text = vec![in heap; 0u8; MAX_TEXT]?;
    let mut used = Node::none();
    used.first_link = 7;
    let stride = words.saturating_mul(37);
    // one call a table, as each has entries of its own type
    let (n, a) = measured(&rt, nodes.as_mut_slice(), used, rounds, stride)?;
    let (l, b) = measured(&rt, links.as_mut_slice(), 7u32, rounds, stride)?;
    let (t, c) = measured(&rt, text.as_mut_slice(), 7u8, rounds, stride)?;
    if telling {
        println!(rt;
            "nodes {} {n}\nlinks {} {l}\ntext {} {t}\nread {a} {b} {c}",
            size_of_val(nodes.as_slice()),
            size_of_val(links.as_slice()),
            size_of_val(text.as_slice())
        )?;
    }
    Ok(())
}
