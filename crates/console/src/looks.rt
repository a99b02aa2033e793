// The lines that show the machine.
use crate::set_up::track;
use answers::waiting::Waiting;
use card::registers::Card;
use drive::drive::Drive;
use drive::geometry::{PLACES, Track};
use machine::machine::Machine;
use machine::sums::{data_sum, places_sum};
use script::hex::{Address, Byte, Sum, Word};
use script::line::Look;
use std::io;
use std::io::Write;
use storage::storage::Storage;

// words of storage a line
const WORDS_A_LINE: u32 = 16;

fn waiting<W: Write>(out: &mut W, waiting: Option<Waiting>) -> io::Result<()> {
    match waiting {
        Some(waiting) => writeln!(out, "{}:{}", waiting.code, Word(waiting.id_word)),
        None => writeln!(out, "none"),
    }
}

fn registers<W: Write>(out: &mut W, card: &Card, device: u8) -> io::Result<()> {
    let device = Byte(device);
    let cylinder = card.position.cylinder;
    let head = card.position.head;
    let level = card.level;
    let state = if card.enabled { "enabled" } else { "disabled" };
    let ready = if card.ready { "ready" } else { "not-ready" };
    let busy = if card.is_busy() { "busy" } else { "free" };
    write!(
        out,
        "card: device {device} at {cylinder} {head} level {level} {state} {ready} {busy} waiting "
    )?;
    waiting(out, card.waiting)
}

fn status<W: Write>(out: &mut W, card: &Card) -> io::Result<()> {
    writeln!(
        out,
        "status: {} {} {} {}",
        Word(card.residual),
        Word(card.errors),
        Word(card.write_sector),
        Word(0)
    )
}

// A line of words from an address on; at most as many as are left.
fn row<W: Write, S: Storage>(out: &mut W, storage: &S, address: u32, left: u32) -> io::Result<()> {
    write!(out, "words {}:", Address(address))?;
    for i in 0..left.min(WORDS_A_LINE) {
        match storage.load(address.saturating_add(2 * i), 0) {
            Ok(word) => write!(out, " {}", Word(word))?,
            Err(_) => write!(out, " ----")?,
        }
    }
    writeln!(out)
}

fn words<W: Write, S: Storage>(
    out: &mut W,
    storage: &S,
    address: u32,
    count: u32,
) -> io::Result<()> {
    for done in (0..count).step_by(WORDS_A_LINE as usize) {
        row(
            out,
            storage,
            address.saturating_add(done.saturating_mul(2)),
            count.saturating_sub(done),
        )?;
    }
    Ok(())
}

fn place<W: Write, D: Drive>(out: &mut W, drive: &D, track: Track, place: u8) -> io::Result<()> {
    let field = drive.id(track, place);
    let id = field.id;
    write!(out, "place {place:02}: id {} ", field.condition)?;
    write!(
        out,
        "{} {} {} {} ",
        Byte(id.flag),
        Word(id.cylinder),
        Byte(id.head),
        Byte(id.sector)
    )?;
    let data = drive.data_condition(track, place);
    match data_sum(drive, track, place) {
        Some(sum) => writeln!(out, "data {data} {}", Sum(sum)),
        None => writeln!(out, "data {data} --------"),
    }
}

fn places<W: Write, D: Drive>(out: &mut W, drive: &D, track: Track) -> io::Result<()> {
    for p in 0..PLACES {
        place(out, drive, track, p)?;
    }
    Ok(())
}

pub fn show<W: Write>(out: &mut W, machine: &Machine, look: Look) -> io::Result<()> {
    match look {
        Look::Card => registers(out, machine.card(), machine.device()),
        Look::Status => status(out, machine.card()),
        Look::Words { address, count } => words(out, machine.storage(), address, count),
        Look::Track { cylinder, head } => places(out, machine.drive(), track(cylinder, head)),
        Look::Places => writeln!(out, "places: {}", Sum(places_sum(machine.drive()))),
    }
}
