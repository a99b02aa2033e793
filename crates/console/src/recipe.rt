// A recipe in storage, on its way to a sector and back.
use anyhow::anyhow;
use basics::fault::Fault;
use drive::drive::Drive;
use drive::geometry::{SECTOR_BYTES, Track};
use drive::search::search;
use drive::sector::SectorId;
use load::load::RECIPE;
use storage::storage::Storage;

pub const WORDS: usize = RECIPE.len();

// where the recipe is entered, and where it is read back to
const ENTERED: u32 = 0x0100;

const READ_BACK: u32 = 0x0200;

const KEY: u8 = 0;

// Stores words from an address on.
fn store<S: Storage>(storage: &mut S, address: u32, words: [u16; WORDS]) -> Result<(), Fault> {
    for (address, word) in (address..).step_by(2).zip(words) {
        storage.store(address, KEY, word)?;
    }
    Ok(())
}

// The words from an address on.
fn load<S: Storage>(storage: &S, address: u32) -> Result<[u16; WORDS], Fault> {
    let mut words = [0; WORDS];
    for (word, address) in words.iter_mut().zip((address..).step_by(2)) {
        *word = storage.load(address, KEY)?;
    }
    Ok(words)
}

// Stores the words of the recipe.
pub fn enter<S: Storage>(storage: &mut S) -> anyhow::Result<()> {
    store(storage, ENTERED, RECIPE).map_err(|_| anyhow!("a word of the recipe can't be stored"))
}

// the place of a sector of the track, searched from index
fn find<D: Drive>(drive: &D, track: Track, sector: u8) -> anyhow::Result<u8> {
    let argument = SectorId {
        flag: 0,
        cylinder: track.cylinder,
        head: track.head,
        sector,
    };
    search(drive, track, argument).map_err(|_| anyhow!("no record found"))
}

// words as the bytes of a sector, the rest zero
fn sector_of(words: [u16; WORDS]) -> [u8; SECTOR_BYTES] {
    let mut bytes = [0; SECTOR_BYTES];
    for (pair, word) in bytes.as_chunks_mut().0.iter_mut().zip(words) {
        *pair = word.to_be_bytes();
    }
    bytes
}

// the words that the bytes of a sector begin with
fn words_of(bytes: &[u8]) -> [u16; WORDS] {
    let mut words = [0; WORDS];
    for (word, pair) in words.iter_mut().zip(bytes.as_chunks().0) {
        *word = u16::from_be_bytes(*pair);
    }
    words
}

// Writes the recipe into a sector, and answers the place where it was found.
pub fn write<S: Storage, D: Drive>(
    storage: &S,
    drive: &mut D,
    track: Track,
    sector: u8,
) -> anyhow::Result<u8> {
    let place = find(drive, track, sector)?;
    let words = load(storage, ENTERED).map_err(|_| anyhow!("a word of the recipe can't be read"))?;
    drive
        .write(track, place, &sector_of(words))
        .map_err(|_| anyhow!("the sector can't be written"))?;
    Ok(place)
}

// Reads the sector back into storage by a search of its own, and answers how many words are as they were entered.
pub fn read_back<S: Storage, D: Drive>(
    storage: &mut S,
    drive: &D,
    track: Track,
    sector: u8,
) -> anyhow::Result<usize> {
    let place = find(drive, track, sector)?;
    let bytes = drive
        .read(track, place)
        .map_err(|_| anyhow!("the sector can't be read"))?;
    store(storage, READ_BACK, words_of(bytes)).map_err(|_| anyhow!("a word can't be stored"))?;
    alike(storage).map_err(|_| anyhow!("a word can't be read back"))
}

// how many words were read back as they were entered
fn alike<S: Storage>(storage: &S) -> Result<usize, Fault> {
    let entered = load(storage, ENTERED)?;
    let back = load(storage, READ_BACK)?;
    Ok(
        entered
            .iter()
            .zip(&back)
            .filter(|(word, back)| word == back)
            .count(),
    )
}
