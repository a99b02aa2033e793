// The calls of a load, in parts that each have a title.
use answers::answer::Answer;
use card::call::Call;
use runs::entry::Entry;

// A part of a load: its title, and the number of its first call.
// kept: one run takes its entries in one slice, so a part can't hold its own
#[derive(Clone, Copy)]
pub struct Part {
    pub title: &'static str,
    pub first: usize,
}

#[derive(Drop)]
pub struct Calls {
    pub entries: Vec<Entry>,
    pub parts: Vec<Part>,
}

impl Calls {
    pub fn begin(&mut self, title: &'static str) -> anyhow::Result<()> {
        let first = self.entries.len();
        self.parts.push(Part { title, first })?;
        Ok(())
    }

    pub fn ask(&mut self, call: Call) -> anyhow::Result<()> {
        self.entries.push(Entry {
            call,
            answer: Answer::Done,
        })?;
        Ok(())
    }

    // words stored by the processor, from an address on
    pub fn words(&mut self, address: u32, words: &[u16]) -> anyhow::Result<()> {
        for (address, &word) in (address..).step_by(2).zip(words) {
            self.ask(Call::Store {
                address,
                key: 0,
                word,
            })?;
        }
        Ok(())
    }

    pub fn command(&mut self, byte: u8, second: u16) -> anyhow::Result<()> {
        self.ask(Call::Command {
            first: u16::from_be_bytes([byte, 0]),
            second,
            parity: true,
        })
    }

    pub fn steps(&mut self, count: u8) -> anyhow::Result<()> {
        for _ in 0..count {
            self.ask(Call::Step)?;
        }
        Ok(())
    }

    // Start Cycle Steal Status with the block at an address: it is fetched, the words are sent, device end is served
    pub fn status(&mut self, block: u16) -> anyhow::Result<()> {
        self.command(0x7F, block)?;
        self.steps(2)?;
        self.ask(Call::Service)
    }
}
