// An interrupt status byte and the four status words, told line by line.
use crate::bit::Bit;
use crate::reason::REASONS;
use crate::status_bit::STATUS_BITS;
use std::io;
use std::io::Write;

// Tells the bits that are set: each that is explained, then the others together.
fn bits<W: Write, B: Bit>(out: &mut W, explained: &[B], word: u16) -> io::Result<()> {
    for bit in explained.iter().filter(|bit| bit.is_in(word)) {
        writeln!(out, "  bit {}: {}", bit.bit(), bit.meaning())?;
        writeln!(out, "         next: {}", bit.advice())?;
    }
    let never = explained.iter().fold(word, |rest, bit| rest & !bit.mask());
    if never != 0 {
        let digits = B::DIGITS;
        writeln!(out, "  bits {never:0digits$X}: this card never sets them")?;
    }
    Ok(())
}

// Tells the bits of the interrupt status byte.
pub fn status_byte<W: Write>(out: &mut W, byte: u8) -> io::Result<()> {
    writeln!(out, "interrupt status byte {byte:02X}")?;
    if byte == 0 {
        writeln!(
            out,
            "  no exception: device end, or attention because the unit turned ready"
        )?;
    }
    bits(out, &STATUS_BITS, u16::from(byte))
}

// Tells the reasons in status word 1.
fn reasons<W: Write>(out: &mut W, word: u16) -> io::Result<()> {
    writeln!(out, "status word 1: {word:04X}, the reasons")?;
    if word == 0 {
        writeln!(out, "  none")?;
    }
    bits(out, &REASONS, word)
}

// Tells the four status words.
pub fn status_words<W: Write>(out: &mut W, words: [u16; 4]) -> io::Result<()> {
    let [residual, errors, sector, last] = words;
    writeln!(out, "status word 0: {residual:04X}, the residual address")?;
    writeln!(
        out,
        "  the last word that a step fetched or stored well is at X{residual:04X}"
    )?;
    reasons(out, errors)?;
    writeln!(out, "status word 2: {sector:04X}, the last write")?;
    writeln!(
        out,
        "  sector {sector} is where it ended early or, if it ended well, the one after its last"
    )?;
    writeln!(out, "status word 3: {last:04X}")?;
    if last != 0 {
        writeln!(out, "  this card always has zero here")?;
    }
    Ok(())
}
