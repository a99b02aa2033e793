// The device control block: eight words fetched in order, and the operation that they ask for.
ghost use Rattle.std.specs.Prelude.{◌≡◌};
ghost use Rattle.std.specs.Option.{ok_or};
ghost use Rattle.card.specs.Blocks.{chaining, input, key, modifier, downward, difference, flag, cylinder, head, sector, chain, count, data_address, operation_of, input_fits, fits, lawful, lawful_status};

// What a control block of Start asks for.
#[derive(Clone, Copy, PartialEq, Eq, Debug)]
pub enum Operation {
    Seek,
    Recalibrate,
    ReadData,
    WriteData,
    ReadVerify,
}

// A control block as it was fetched, with the address that it was fetched from.
#[derive(Clone, Copy)]
pub struct Block {
    pub address: u16,
    pub words: [u16; 8],
}

// A modifier that stands for no operation.
#[derive(Clone, Copy, PartialEq, Eq, Debug)]
pub struct UnknownModifier(pub u8);

// By the modifier of a control word.
impl TryFrom<u8> for Operation {
    type Error = UnknownModifier;

    ghost try_from_gives = { λ modifier r. r ≡ ok_or (operation_of modifier) (record { 0 = modifier }) };

    fn try_from(modifier: u8) -> Result<Operation, UnknownModifier> {
        match modifier {
            1 => Ok(Operation::WriteData),
            5 => Ok(Operation::Seek),
            7 => Ok(Operation::Recalibrate),
            9 => Ok(Operation::ReadData),
            12 => Ok(Operation::ReadVerify),
            _ => Err(UnknownModifier(modifier)),
        }
    }
}

impl Block {
    pub(crate) fn is_chaining(self) -> bool
        ensures { result ≡ chaining self }
    {
        self.words[0] / 32768 % 2 == 1
    }

    pub(crate) fn is_input(self) -> bool
        ensures { result ≡ input self }
    {
        self.words[0] / 8192 % 2 == 1
    }

    pub(crate) fn key(self) -> u8
        ensures { result ≡ key self }
    {
        (self.words[0] / 256 % 8) as u8
    }

    pub(crate) fn operation(self) -> Option<Operation>
        ensures { result ≡ operation_of (modifier self) }
    {
        let [_, modifier] = self.words[0].to_be_bytes();
        Operation::try_from(modifier).ok()
    }

    pub(crate) fn is_downward(self) -> bool
        ensures { result ≡ downward self }
    {
        self.words[1] / 2048 % 2 == 1
    }

    pub(crate) fn difference(self) -> u16
        ensures { result ≡ difference self }
    {
        self.words[1] % 512
    }

    pub(crate) fn flag(self) -> u8
        ensures { result ≡ flag self }
    {
        let [_, flag] = self.words[2].to_be_bytes();
        flag
    }

    pub(crate) fn cylinder(self) -> u16
        ensures { result ≡ cylinder self }
    {
        self.words[3]
    }

    pub(crate) fn head(self) -> u8
        ensures { result ≡ head self }
    {
        let [head, _] = self.words[4].to_be_bytes();
        head
    }

    pub(crate) fn sector(self) -> u8
        ensures { result ≡ sector self }
    {
        let [_, sector] = self.words[4].to_be_bytes();
        sector
    }

    pub(crate) fn chain(self) -> u16
        ensures { result ≡ chain self }
    {
        self.words[5]
    }

    pub(crate) fn count(self) -> u16
        ensures { result ≡ count self }
    {
        self.words[6]
    }

    pub(crate) fn data_address(self) -> u16
        ensures { result ≡ data_address self }
    {
        self.words[7]
    }

    // what the operation itself asks of its block
    fn fits(self, operation: Operation) -> bool
        ensures { result ≡ fits operation self }
    {
        match operation {
            Operation::Seek => self.words[1] & 0xF600 == 0,
            Operation::Recalibrate => true,
            Operation::ReadData | Operation::WriteData => {
                self.sector() <= 59 && self.count() % 2 == 0 && self.data_address() % 2 == 0
            }
            Operation::ReadVerify => self.sector() <= 59 && self.count() != 0,
        }
    }

    // whether the input flag goes with the operation
    fn input_fits(self, operation: Operation) -> bool
        ensures { result ≡ input_fits operation (input self) }
    {
        match operation {
            Operation::ReadData => self.is_input(),
            _ => !self.is_input(),
        }
    }

    // whether a block of Start passes the check, the head of a seek aside
    pub(crate) fn is_lawful(self, operation: Operation) -> bool
        ensures { result ≡ lawful operation self }
    {
        self.words[0] & 0x5800 == 0
            && self.input_fits(operation)
            && (!self.is_chaining() || self.chain() % 2 == 0)
            && self.fits(operation)
    }

    // whether a block of Start Cycle Steal Status passes it
    pub(crate) fn is_lawful_status(self) -> bool
        ensures { result ≡ lawful_status self }
    {
        self.words[0] & 0xF8FF == 0x2000
            && self.count() % 2 == 0
            && self.count() >= 2
            && self.count() <= 8
            && self.data_address() % 2 == 0
    }
}
