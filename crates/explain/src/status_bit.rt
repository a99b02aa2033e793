// The bits of the interrupt status byte that the card sets.
ghost use Rattle.std.specs.Prelude.{◌≡◌, ◌*◌, ◌^◌, ◌<◌};
ghost use Rattle.explain.specs.Bits.{byte_mask, ByteExplained};

use crate::bit::Bit;

#[derive(Clone, Copy, PartialEq, Eq, Debug)]
pub enum StatusBit {
    StatusAvailable,
    SpecificationCheck,
    StorageDataCheck,
    InvalidAddress,
    ProtectCheck,
}

// In order from bit 0, the highest.
pub const STATUS_BITS: [StatusBit; 5] = [
    StatusBit::StatusAvailable,
    StatusBit::SpecificationCheck,
    StatusBit::StorageDataCheck,
    StatusBit::InvalidAddress,
    StatusBit::ProtectCheck,
];

impl Bit for StatusBit {
    const HIGHEST: u16 = 0x80;

    ghost HIGHEST = { 0x80 };

    const DIGITS: usize = 2;

    ghost mask_of = { byte_mask };

    fn bit(self) -> u8
        ensures value { byte_mask self * 2 ^ result ≡ 0x80 }
        ensures in_word { result < 16 }
        ensures explained { ByteExplained }
    {
        match self {
            StatusBit::StatusAvailable => 0,
            StatusBit::SpecificationCheck => 3,
            StatusBit::StorageDataCheck => 4,
            StatusBit::InvalidAddress => 5,
            StatusBit::ProtectCheck => 6,
        }
    }

    fn meaning(self) -> &'static str {
        match self {
            StatusBit::StatusAvailable => "the drive ended the operation; status word 1 tells why",
            StatusBit::SpecificationCheck => "specification check: a control block is not lawful",
            StatusBit::StorageDataCheck =>
                "storage data check: a word read from storage has bad parity",
            StatusBit::InvalidAddress => "invalid address: the storage has no such word",
            StatusBit::ProtectCheck => "protect check: the key does not open the block of storage",
        }
    }

    fn advice(self) -> &'static str {
        match self {
            StatusBit::StatusAvailable => "read the reasons in status word 1",
            StatusBit::SpecificationCheck => {
                "look at the control block: its address, the unused bits of word 0, modifier and input flag, chain address, sector, head of a seek, count, data address"
            }
            StatusBit::StorageDataCheck => "the word after status word 0 is the one; store it anew",
            StatusBit::InvalidAddress =>
                "compare data address and count with the size of the storage",
            StatusBit::ProtectCheck =>
                "compare the key in word 0 of the control block with that of the block of storage",
        }
    }
}
