// Looks at the machine: status words, position, words of storage and of sectors.
use crate::machine::Machine;
use crate::said::{OK, Said};
use crate::turns::{Ask, expect};
use drive::drive::Drive;
use drive::geometry::Track;
use std::process::Abort;
use std::test::Fail;
use storage::storage::Storage;

// A word of a sector's data: cylinder, head, place, which of the 128, and the word.
pub struct DataWord(pub u16, pub u8, pub u8, pub u8, pub u16);

// Stores a control block with key 0.
pub fn put_block(
    rt: &impl Abort,
    row: &str,
    machine: &mut Machine,
    address: u16,
    block: &[u16; 8],
) -> Result<(), Fail> {
    let mut at = u32::from(address);
    for word in block {
        expect(rt, row, machine, Ask::Store(at, 0, *word), Said::Done)?;
        at = at.wrapping_add(2);
    }
    Ok(())
}

// The four status words, as Start Cycle Steal Status brings them to X0030, by a block at X0020. The card has to be free,
// with interrupts enabled.
pub fn status(rt: &impl Abort, row: &str, machine: &mut Machine) -> Result<[u16; 4], Fail> {
    put_block(
        rt,
        row,
        machine,
        0x0020,
        &[0x2000, 0, 0, 0, 0, 0, 8, 0x0030],
    )?;
    expect(rt, row, machine, Ask::Command(0x7F03, 0x0020), OK)?;
    expect(rt, row, machine, Ask::Step, Said::Stepped)?;
    expect(rt, row, machine, Ask::Step, Said::Stepped)?;
    expect(rt, row, machine, Ask::Service, Said::Interrupt(3, 0x0003))?;
    let storage = machine.storage();
    Ok([
        storage.load(0x0030, 0)?,
        storage.load(0x0032, 0)?,
        storage.load(0x0034, 0)?,
        storage.load(0x0036, 0)?,
    ])
}

// cylinder and head
pub fn position(machine: &Machine) -> (u16, u8) {
    let position = machine.card().position;
    (position.cylinder, position.head)
}

pub fn check_words(
    rt: &impl Abort,
    row: &str,
    machine: &Machine,
    words: &[(u32, u16)],
) -> Result<(), Fail> {
    for (address, word) in words {
        assert_eq!(rt;
            machine.storage().load(*address, 0)?,
            *word,
            "{row}, {address}"
        );
    }
    Ok(())
}

fn word_of(bytes: &[u8], number: u8) -> Option<u16> {
    let at = 2 * number as usize;
    if at + 1 < bytes.len() {
        return Some(u16::from_be_bytes([bytes[at], bytes[at + 1]]));
    }
    None
}

pub fn check_data(
    rt: &impl Abort,
    row: &str,
    machine: &Machine,
    data: &[DataWord],
) -> Result<(), Fail> {
    for DataWord(cylinder, head, place, number, word) in data {
        let track = Track {
            cylinder: *cylinder,
            head: *head,
        };
        let found = word_of(machine.drive().read(track, *place)?, *number);
        assert_eq!(rt; found, Some(*word), "{row}, {place}");
    }
    Ok(())
}
