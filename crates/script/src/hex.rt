// Numbers printed in hexadecimal with capital letters, padded with zeros.
ghost use Rattle.std.specs.Prelude.{Some};
ghost use Rattle.script.specs.Figures.{hex, hex_address};

use std::fmt;

// A byte, two digits.
#[derive(Clone, Copy)]
pub struct Byte(pub u8);

impl fmt::Display for Byte {
    ghost output = { λ x. Some (hex 2 x.0) };

    fn fmt<W: fmt::Write>(&self, f: &mut fmt::Formatter<W>) -> fmt::Result {
        let byte = self.0;
        write!(f, "{byte:02X}")
    }
}

// A word, four digits.
#[derive(Clone, Copy)]
pub struct Word(pub u16);

impl fmt::Display for Word {
    ghost output = { λ x. Some (hex 4 x.0) };

    fn fmt<W: fmt::Write>(&self, f: &mut fmt::Formatter<W>) -> fmt::Result {
        let word = self.0;
        write!(f, "{word:04X}")
    }
}

// A sum, eight digits.
#[derive(Clone, Copy)]
pub struct Sum(pub u32);

impl fmt::Display for Sum {
    ghost output = { λ x. Some (hex 8 x.0) };

    fn fmt<W: fmt::Write>(&self, f: &mut fmt::Formatter<W>) -> fmt::Result {
        let sum = self.0;
        write!(f, "{sum:08X}")
    }
}

// An address, five digits; eight if it needs more than five.
#[derive(Clone, Copy)]
pub struct Address(pub u32);

impl fmt::Display for Address {
    ghost output = { λ x. Some (hex_address x.0) };

    fn fmt<W: fmt::Write>(&self, f: &mut fmt::Formatter<W>) -> fmt::Result {
        let address = self.0;
        if address < 0x10_0000 {
            write!(f, "{address:05X}")
        } else {
            write!(f, "{address:08X}")
        }
    }
}
