// The lines of the parts.
use std::time::Instant;

// Where the parts are told, and whether with their times.
#[derive(Clone, Copy)]
pub struct Report<'a> {
    pub rt: &'a HostRuntime,
    pub times: bool,
}

impl Report<'_> {
    // Tells what was done since `start` with so many bytes, and with times how long that took.
    pub fn tell(
        &self,
        start: Instant,
        part: &str,
        size: usize,
        count: usize,
        counted: &str,
    ) -> anyhow::Result<()> {
        let micros = start.elapsed(self.rt)?.as_micros();
        print!(self.rt; "{part}, {size} bytes: {count} {counted}")?;
        if self.times {
            print!(self.rt; ", {}.{:03} ms", micros / 1000, micros % 1000)?;
        }
        println!(self.rt; "")?;
        Ok(())
    }
}
