// The load: what is asked of the card, and what came of it.
ghost use Rattle.std.specs.Prelude.{◌≡◌, IfOk, replicate};

use crate::part::{Calls, Part};
use answers::answer::Answer;
use anyhow::anyhow;
use card::call::Call;
use card::surroundings::Surroundings;
use drive::geometry::Track;
use explain::told;
use pack::plain_pack::PlainPack;
use pack::plain_pack::open::TWO_HEADS_BYTES;
use runs::entry::Entry;
use runs::run::run;
use script::printed::{AnswerLine, CallLine};
use std::alloc::Global;
use std::io;
use std::io::Write;
use storage::plain::Plain;
use storage::storage::Storage;

// dye, water, salt, temperature, minutes, lot
pub const RECIPE: [u16; 6] = [0x01F4, 0x0FA0, 0x0078, 0x0062, 0x002D, 0x1A2B];

const TRACK: Track = Track {
    cylinder: 12,
    head: 1,
};

// where in storage things lie
const ENTERED: u32 = 0x0200;

const READ_BACK: u32 = 0x0300;

const STATUS: u32 = 0x0400;

// up to cylinder 12, head 1; a chain goes on at X0110
const SEEK: [u16; 8] = [0x8005, 0x000C, 0, 0, 0x0100, 0x0110, 0, 0];

// 12 bytes from X0200 into sector 7 of cylinder 12, head 1
const WRITE: [u16; 8] = [0x8001, 0, 0, 0x000C, 0x0107, 0x0120, 12, 0x0200];

const VERIFY: [u16; 8] = [0x800C, 0, 0, 0x000C, 0x0107, 0x0130, 12, 0];

// the sector's first 12 bytes to X0300
const READ: [u16; 8] = [0x2009, 0, 0, 0x000C, 0x0107, 0, 12, 0x0300];

// all four status words to X0400
const ASK_STATUS: [u16; 8] = [0x2000, 0, 0, 0, 0, 0, 8, 0x0400];

// a sector of cylinder 99, with the heads over cylinder 12
const READ_ELSEWHERE: [u16; 8] = [0x2009, 0, 0, 0x0063, 0x0107, 0, 12, 0x0300];

fn well(calls: &mut Calls) -> anyhow::Result<()> {
    calls.begin(
        "Prepare enables interrupts at level 3; the unit turns ready; attention is served",
    )?;
    calls.command(0x60, 0x0007)?;
    calls.ask(Call::Readiness { ready: true })?;
    calls.ask(Call::Service)?;
    calls.begin(
        "the processor stores the recipe and a chain of Seek, Write Data, Read Verify, Read Data",
    )?;
    calls.words(ENTERED, &RECIPE)?;
    calls.words(0x0100, &SEEK)?;
    calls.words(0x0110, &WRITE)?;
    calls.words(0x0120, &VERIFY)?;
    calls.words(0x0130, &READ)?;
    calls.begin("Start; each block is fetched and done; device end is served")?;
    calls.command(0x70, 0x0100)?;
    calls.steps(8)?;
    calls.ask(Call::Service)?;
    calls.begin("the status words are asked for")?;
    calls.words(0x0140, &ASK_STATUS)?;
    calls.status(0x0140)
}

fn badly(calls: &mut Calls) -> anyhow::Result<()> {
    calls.begin("a sector of another cylinder is read: it is not under the heads")?;
    calls.words(0x0150, &READ_ELSEWHERE)?;
    calls.command(0x70, 0x0150)?;
    calls.steps(2)?;
    calls.ask(Call::Service)?;
    calls.begin("the status words are asked for again")?;
    calls.status(0x0140)
}

// A pack of two heads in memory, with one track fresh.
fn fresh_pack(heap: Global) -> anyhow::Result<PlainPack> {
    let bytes = vec![in heap; 0u8; TWO_HEADS_BYTES]?;
    let mut pack = PlainPack::open(bytes).map_err(|_| anyhow!("the pack was refused"))?;
    pack.fresh_track(TRACK)
        .map_err(|_| anyhow!("the track is not on the drive"))?;
    Ok(pack)
}

// Plain storage of 4,096 bytes, all words zero.
pub fn empty_storage(heap: Global) -> anyhow::Result<Plain>
    ensures { IfOk result (λ s. s.bytes.items ≡ replicate 4096 0) }
{
    // kept: by `map_err` the clause is not found
    match Plain::new(vec![in heap; 0u8; 4096]?) {
        Ok(storage) => Ok(storage),
        Err(_) => Err(anyhow!("the storage was refused")),
    }
}

// the last interrupt's status byte, the high byte of its ID word
fn last_status_byte(entries: &[Entry]) -> Option<u8> {
    entries.iter().rev().find_map(|entry| match entry.answer {
        Answer::Interrupt { waiting } => {
            let [status, _device] = waiting.id_word.to_be_bytes();
            Some(status)
        }
        _ => None,
    })
}

fn is_store(entry: &Entry) -> bool {
    matches!(entry.call, Call::Store { .. })
}

// One call with its answer.
fn tell<W: Write>(out: &mut W, entry: &Entry) -> io::Result<()> {
    let call = entry.call;
    let answer = entry.answer;
    writeln!(out, "    {}", CallLine(call))?;
    writeln!(out, "        {}", AnswerLine { call, answer })
}

// The calls of a part; stores are many and all alike, and are told as a number.
fn tell_part<W: Write>(out: &mut W, title: &str, entries: &[Entry]) -> io::Result<()> {
    writeln!(out, "{title}")?;
    for entry in entries.iter().filter(|entry| !is_store(entry)) {
        tell(out, entry)?;
    }
    let stored = entries.iter().filter(|entry| is_store(entry)).count();
    if stored > 0 {
        writeln!(out, "    {stored} words stored")?;
    }
    Ok(())
}

fn tell_parts<W: Write>(out: &mut W, calls: &Calls) -> io::Result<()> {
    let entries = calls.entries.as_slice();
    let ends = calls.parts.iter().skip(1).map(|next| next.first);
    for (part, end) in calls.parts.iter().zip(ends.chain([entries.len()])) {
        let of_part = entries.get(part.first..end).unwrap_or_default();
        tell_part(out, part.title, of_part)?;
    }
    Ok(())
}

// The words from an address on.
fn words<const N: usize>(storage: &Plain, address: u32) -> anyhow::Result<[u16; N]> {
    let mut words = [0; N];
    for (word, address) in words.iter_mut().zip((address..).step_by(2)) {
        *word = storage
            .load(address, 0)
            .map_err(|fault| anyhow!("a word can't be read: {fault}"))?;
    }
    Ok(words)
}

fn tell_end<W: Write>(out: &mut W, storage: &Plain, entries: &[Entry]) -> anyhow::Result<()> {
    let entered: [u16; 6] = words(storage, ENTERED)?;
    let back: [u16; 6] = words(storage, READ_BACK)?;
    let alike = entered
        .iter()
        .zip(&back)
        .filter(|(word, back)| word == back)
        .count();
    writeln!(
        out,
        "the recipe was read back: {alike} of 6 words are alike"
    )?;
    writeln!(out)?;
    writeln!(out, "what the last exception says in plain words")?;
    // the last three calls ask for the status words
    let (asked, _) = entries.split_at(entries.len().saturating_sub(3));
    if let Some(byte) = last_status_byte(asked) {
        told::status_byte(out, byte)?;
    }
    told::status_words(out, words(storage, STATUS)?)?;
    Ok(())
}

// Performs the load as one run over a pack and a storage in memory, and tells it.
pub fn perform<W: Write>(heap: Global, out: &mut W) -> anyhow::Result<()> {
    let mut calls = Calls {
        entries: Vec::new(heap),
        parts: Vec::new(heap),
    };
    well(&mut calls)?;
    badly(&mut calls)?;
    let mut around = Surroundings {
        device: 0,
        drive: fresh_pack(heap)?,
        storage: empty_storage(heap)?,
    };
    let _card = run(&mut around, calls.entries.as_mut_slice());
    tell_parts(out, &calls)?;
    tell_end(out, &around.storage, calls.entries.as_slice())
}
