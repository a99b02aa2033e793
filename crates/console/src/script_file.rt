// The text of a script.
use std::io::Read;
use std::{fs, io};

fn bytes(rt: &HostRuntime, name: &str) -> io::Result<Vec<u8>> {
    if name != "-" {
        return fs::read(rt, name);
    }
    let mut bytes = Vec::new(rt.alloc());
    rt.stdin().read_to_end(&mut bytes)?;
    Ok(bytes)
}

// All of a file, or of standard input; bytes that are no text are replaced, and no line means anything by them.
pub fn read(rt: &HostRuntime, name: &str) -> io::Result<String> {
    let bytes = bytes(rt, name)?;
    Ok(String::from_utf8_lossy(rt.alloc(), bytes.as_slice())?)
}
