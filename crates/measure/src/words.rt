// Words that go through each make of storage.
use crate::report::Report;
use anyhow::anyhow;
use std::alloc::Global;
use std::time::Instant;
use storage::keyed::{BLOCK_BYTES, Keyed};
use storage::parity::Parity;
use storage::plain::Plain;
use storage::storage::Storage;

// how often the whole storage is stored and loaded
const ROUNDS: u16 = 16;

// the key of every block and of every access
const KEY: u8 = 5;

// what is stored at an address
fn pattern(address: u32, round: u16) -> u16 {
    (address / 2 % 65536) as u16 ^ round
}

// Stores every word, then loads every word, and answers how many came back as stored.
fn round_trip<S: Storage>(storage: &mut S, round: u16) -> usize {
    let words = storage.size() / 2;
    for address in (0..words).map(|word| word * 2) {
        let _ = storage.store(address, KEY, pattern(address, round));
    }
    (0..words)
        .map(|word| word * 2)
        .filter(|&address| {
            storage
                .load(address, KEY)
                .is_ok_and(|word| word == pattern(address, round))
        })
        .count()
}

// Goes through a storage in rounds, and tells how many words came back.
fn round_trips<S: Storage + Drop>(
    report: &Report<'_>,
    make: &str,
    mut storage: S,
) -> anyhow::Result<()> {
    let start = Instant::now(report.rt)?;
    let alike = (0..ROUNDS).fold(0usize, |alike, round| {
        alike.saturating_add(round_trip(&mut storage, round))
    });
    let size = storage.size() as usize;
    report.tell(start, make, size, alike, "words loaded as they were stored")
}

fn bytes_of(heap: Global, blocks: usize) -> anyhow::Result<Vec<u8>> {
    Ok(vec![in heap; 0u8; blocks.saturating_mul(BLOCK_BYTES)]?)
}

fn plain_of(heap: Global, blocks: usize) -> anyhow::Result<Plain> {
    Plain::new(bytes_of(heap, blocks)?).map_err(|_| anyhow!("the size was refused"))
}

fn keyed_of(heap: Global, blocks: usize) -> anyhow::Result<Keyed> {
    let keys = vec![in heap; KEY; blocks]?;
    Keyed::new(bytes_of(heap, blocks)?, keys).map_err(|_| anyhow!("the keys were refused"))
}

// Keyed storage under a parity layer in which the first sixteen words are marked.
fn marked_of(heap: Global, blocks: usize) -> anyhow::Result<Parity<Keyed>> {
    let mut storage = Parity::new(keyed_of(heap, blocks)?);
    for address in (0..32).step_by(2) {
        storage
            .mark(address)
            .map_err(|_| anyhow!("a mark was refused"))?;
    }
    Ok(storage)
}

// Each make of storage, of so many blocks.
pub fn each_make(report: &Report<'_>, blocks: usize) -> anyhow::Result<()> {
    let heap = report.rt.alloc();
    round_trips(report, "plain storage", plain_of(heap, blocks)?)?;
    round_trips(report, "keyed storage", keyed_of(heap, blocks)?)?;
    round_trips(
        report,
        "parity layer over keyed storage",
        marked_of(heap, blocks)?,
    )
}
