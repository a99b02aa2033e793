// How words move between the card and storage: in order, at rising addresses, until one is not allowed.
ghost use Rattle.std.specs.Prelude.{◌≡◌, ℕ, ◌^◌, ◌<◌, ◌≤◌, true, length, map, MatchResult};
ghost use Rattle.std.specs.Int.{w16, from_be_bytes};
ghost use Rattle.drive.specs.Disk.{Disk};
ghost use Rattle.answers.specs.declared.answer.Exception.TheVariants.{Storage};
ghost use Rattle.card.specs.Acts.{spares_storage, ends, sent, ended, world};
ghost use Rattle.card.specs.Words.{fetch_words, store_words, well, stopped_at, FetchEnds};

use answers::answer::Exception;
use basics::fault::Fault;
use storage::storage::Storage;

// The word that was not allowed, by its address, which may lie past the storage.
#[derive(Clone, Copy)]
pub struct Stopped {
    pub fault: Fault,
    pub address: u32,
}

// A storage fault as an exception.
impl From<Stopped> for Exception {
    ghost from_gives = { λ s e. e ≡ Storage s.fault s.address };

    fn from(stopped: Stopped) -> Exception {
        Exception::Storage {
            fault: stopped.fault,
            address: stopped.address,
        }
    }
}

// Fetches the words from an address on, and keeps the address of the last good one.
pub(crate) fn fetch_words<S: Storage>(
    storage: &S,
    address: u32,
    key: u8,
    words: &mut [u16],
    residual: &mut u16,
) -> Result<(), Stopped>
    requires low { address < 2 ^ 20 }
    requires few { length words.old ≤ 128 }
    ensures { (v : ℕ) (d : Disk) → FetchEnds result (ends (fetch_words (length words.old) address key residual.old) (world v d (S.meaning storage.now))) words.new residual.new (world v d (S.meaning storage.now)) }
{
    for (i, word) in words.iter_mut().enumerate() {
        let at = address + 2 * i as u32;
        match storage.load(at, key) {
            Ok(loaded) => {
                *word = loaded;
                *residual = (at % 65536) as u16;
            }
            Err(fault) => return Err(Stopped { fault, address: at }),
        }
    }
    Ok(())
}

// Stores words, high byte first, from an address on, and keeps the address of the last good one.
pub(crate) fn store_words<S: Storage>(
    storage: &mut S,
    address: u32,
    key: u8,
    words: &[[u8; 2]],
    residual: &mut u16,
) -> Result<(), Stopped>
    requires low { address < 2 ^ 20 }
    requires few { length words.now ≤ 128 }
    ensures moved { (v : ℕ) (d : Disk) → MatchResult result
        (λ _. ends (store_words (map (from_be_bytes w16) words.now) address key residual.old) (world v d (S.meaning storage.old)) ≡ ended (well residual.new) (world v d (S.meaning storage.new)))
        (λ s. ends (store_words (map (from_be_bytes w16) words.now) address key residual.old) (world v d (S.meaning storage.old)) ≡ ended (stopped_at residual.new s.fault s.address) (world v d (S.meaning storage.new))) }
    ensures kept { (v : ℕ) (d : Disk) → spares_storage (sent (store_words (map (from_be_bytes w16) words.now) address key residual.old) (world v d (S.meaning storage.old))) ≡ true → storage.new ≡ storage.old }
    ensures lent { S.loan storage.new ≡ S.loan storage.old }
{
    for (i, word) in words.iter().enumerate() {
        let at = address + 2 * i as u32;
        match storage.store(at, key, u16::from_be_bytes(*word)) {
            Ok(()) => *residual = (at % 65536) as u16,
            Err(fault) => return Err(Stopped { fault, address: at }),
        }
    }
    Ok(())
}
