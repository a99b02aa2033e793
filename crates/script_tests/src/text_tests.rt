// Texts split into lines.
use script::words::next_line;
use std::process::Abort;
use std::test::Fail;

// The first line of a text, and what follows.
fn first(rt: &impl Abort, text: &str, line: &str, rest: &str) -> Result<(), Fail> {
    let (found, after) = next_line(text);
    assert!(rt; found == line);
    assert!(rt; after.ok_or("nothing follows")? == rest);
    Ok(())
}

fn last(rt: &impl Abort, text: &str, line: &str) {
    let (found, after) = next_line(text);
    assert!(rt; found == line);
    assert!(rt; after.is_none());
}

#[test]
fn ends(rt: HostRuntime) -> Result<(), Fail> {
    first(&rt, "step\nready", "step", "ready")?;
    first(&rt, "step\r\nready\r\n", "step", "ready\r\n")?;
    first(&rt, "\n\n", "", "\n")?;
    first(&rt, "\r\nstep", "", "step")?;
    first(&rt, "a\rb\r\r\nc", "a\rb\r", "c")?;
    first(&rt, "step\n", "step", "")
}

#[test]
fn last_lines(rt: HostRuntime) {
    last(&rt, "", "");
    last(&rt, "step", "step");
    last(&rt, "  ", "  ");
    last(&rt, "step\r", "step");
}

// How many lines a text has.
fn count(text: &str) -> usize {
    let mut rest = text;
    for n in 1..1000 {
        match next_line(rest) {
            (_, Some(after)) => rest = after,
            (_, None) => return n,
        }
    }
    0
}

#[test]
fn counts(rt: HostRuntime) {
    assert_eq!(rt; count(""), 1);
    assert_eq!(rt; count("a\nb\nc"), 3);
    assert_eq!(rt; count("a\r\nb\r\n"), 3);
    assert_eq!(rt; count("\n\n\n"), 4);
}
