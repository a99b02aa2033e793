// What the lines of a script say.
use card::call::Call;
use drive::defect::Field;

#[derive(Clone, Copy)]
pub enum Line<'a> {
    // no words, or a comment
    Blank,
    SetUp(SetUp<'a>),
    // the pack's bytes to a file
    Save { name: &'a str },
    Call(Call),
    Look(Look),
}

#[derive(Clone, Copy)]
pub enum SetUp<'a> {
    StoragePlain { size: u32 },
    StorageKeyed { keys: Keys },
    StorageFile { name: &'a str },
    PackPlain { name: &'a str },
    PackChained { name: &'a str },
    PackFresh { heads: u32 },
    Device { device: u8 },
    Parity { address: u32 },
    Unparity { address: u32 },
    Defect(DefectAt),
    Undefect(DefectAt),
    Fresh { cylinder: u32, head: u32 },
}

// The field of a place, which may lie far off the drive.
#[derive(Clone, Copy)]
pub struct DefectAt {
    pub field: Field,
    pub cylinder: u32,
    pub head: u32,
    pub place: u32,
}

// The keys of a keyed storage: how many the line has, and the first 32 of them; zeros behind.
// kept: a line takes no heap, and it counts keys past the 32 that it holds, as no vector's length does
#[derive(Clone, Copy)]
pub struct Keys {
    pub count: usize,
    pub keys: [u8; 32],
}

// The lines that change nothing.
#[derive(Clone, Copy)]
pub enum Look {
    Card,
    Status,
    Words { address: u32, count: u32 },
    Track { cylinder: u32, head: u32 },
    Places,
}
