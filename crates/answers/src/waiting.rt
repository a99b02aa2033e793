// An interrupt that waits for service.

#[derive(Clone, Copy, PartialEq, Eq, Debug)]
pub struct Waiting {
    // the condition code
    pub code: u8,
    // the status byte, then the device address
    pub id_word: u16,
}
