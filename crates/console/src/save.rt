// Bytes saved to a file, whole or not at all.
use std::fs::File;
use std::io::{ErrorKind, Write};
use std::{fs, io};

// how many names beside the file are tried
const NAMES: u8 = 100;

fn write(mut file: File, bytes: &[u8]) -> io::Result<()> {
    file.write_all(bytes)?;
    file.sync_all()
}

// Fills a new file and lets it take the name; where that fails, the new file goes.
fn replace(rt: &HostRuntime, file: File, beside: &str, name: &str, bytes: &[u8]) -> io::Result<()> {
    let result = write(file, bytes).and_then(|()| fs::rename(rt, beside, name));
    if result.is_err() {
        let _ = fs::remove_file(rt, beside);
    }
    result
}

// A new file beside the one of the name takes its place.
fn save_beside(rt: &HostRuntime, name: &str, bytes: &[u8]) -> io::Result<()> {
    for number in 0..NAMES {
        let beside = format!(in rt.alloc(); "{name}.new{number}")?;
        match File::create_new(rt, beside.as_str()) {
            Err(error) if error.kind() == ErrorKind::AlreadyExists => {}
            file => return replace(rt, file?, beside.as_str(), name, bytes),
        }
    }
    Err(io::Error::from(ErrorKind::AlreadyExists))
}

// What is there and no plain file, as a link or a device, is written to as it stands.
pub fn save(rt: &HostRuntime, name: &str, bytes: &[u8]) -> io::Result<()> {
    match fs::symlink_metadata(rt, name) {
        Ok(found) if !found.is_file() => fs::write(rt, name, bytes),
        _ => save_beside(rt, name, bytes),
    }
}
