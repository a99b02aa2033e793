// Why an access to storage is not allowed.
ghost use Rattle.std.specs.Prelude.{◌≡◌, Some};
ghost use Rattle.basics.specs.Numbers.{fault_number, fault_word};

use std::fmt;

#[derive(Clone, Copy, PartialEq, Eq, Debug)]
pub enum Fault {
    // the word read has bad parity
    StorageDataCheck = 12,
    // an odd address, or one past the storage
    InvalidAddress = 13,
    // the key does not open the block
    ProtectCheck = 14,
}

impl Fault {
    pub fn number(self) -> u8
        ensures { result ≡ fault_number self }
    {
        self as u8
    }

    pub fn word(self) -> &'static str
        ensures { result.now ≡ fault_word self }
    {
        match self {
            Fault::StorageDataCheck => "storage data check",
            Fault::InvalidAddress => "invalid address",
            Fault::ProtectCheck => "protect check",
        }
    }
}

// Written as its word.
impl fmt::Display for Fault {
    ghost output = { λ x. Some (fault_word x) };

    fn fmt<W: fmt::Write>(&self, f: &mut fmt::Formatter<W>) -> fmt::Result {
        f.write_str(self.word())
    }
}
