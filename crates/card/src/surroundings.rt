// What the card is attached to.

// The device address that the card answers to, the drive, and the processor's storage.
#[derive(Drop)]
pub struct Surroundings<D, S> {
    pub device: u8,
    pub drive: D,
    pub storage: S,
}
