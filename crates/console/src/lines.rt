// A script's lines, read and answered one after another.
ghost use Rattle.std.specs.Prelude.{Some, None, []};
ghost use Rattle.std.specs.Iterator.{item_count};
ghost use Rattle.script.specs.Words.{lines};

use crate::save::save;
use crate::undone::NotDone;
use crate::{begin, looks, script_file, set_up};
use anyhow::anyhow;
use drive::drive::Drive;
use machine::machine::Machine;
use script::line::Line;
use script::printed::{RefusedLine, answer_line};
use script::read::read_line;
use script::words::next_line;
use std::fmt::Display;
use std::io;
use std::io::{BufWriter, Write};

// The lines of a text that are left.
#[derive(Drop)]
struct Lines<'a>(Option<&'a str>);

impl<'a> Iterator for Lines<'a> {
    type Item = &'a str;

    ghost remaining = { item_count (λ s. elim s.0 [ None ↦ [] | Some text ↦ lines text.now ]) };

    fn next(&mut self) -> Option<&'a str> {
        let (line, rest) = next_line(self.0?);
        self.0 = rest;
        Some(line)
    }
}

fn unreadable<W: Write, R: Display>(out: &mut W, number: u64, reason: &R) -> io::Result<()> {
    writeln!(out, "? line {number}: {reason}")
}

fn not_done<W: Write>(out: &mut W, number: u64, why: NotDone) -> io::Result<()> {
    match why {
        NotDone::Refused(refusal) => writeln!(out, "{}", RefusedLine(refusal)),
        NotDone::Unreadable(reason) => unreadable(out, number, &reason),
    }
}

// Answers a line, and gives the machine as it is then.
fn answer<W: Write>(
    rt: &HostRuntime,
    out: &mut W,
    mut machine: Machine,
    number: u64,
    text: &str,
) -> io::Result<Machine> {
    match read_line(text) {
        Ok(Line::Blank) => {}
        Ok(Line::SetUp(line)) => match set_up::perform(rt, machine, line) {
            Ok(after) => {
                writeln!(out, "ok")?;
                machine = after;
            }
            Err(undone) => {
                not_done(out, number, undone.why)?;
                machine = undone.machine;
            }
        },
        Ok(Line::Save { name }) => match save(rt, name, machine.drive().below().bytes()) {
            Ok(()) => writeln!(out, "ok")?,
            Err(error) => unreadable(out, number, &error)?,
        },
        Ok(Line::Call(call)) => {
            let answer = machine.carry_out(call);
            writeln!(out, "{}", answer_line(call, answer))?;
        }
        Ok(Line::Look(look)) => looks::show(out, &machine, look)?,
        Err(reason) => unreadable(out, number, &reason)?,
    }
    Ok(machine)
}

// Answers all lines of a text.
fn answer_all<W: Write>(rt: &HostRuntime, out: &mut W, text: &str) -> anyhow::Result<()> {
    let mut machine = begin::machine(rt.alloc())?;
    for (number, line) in (1u64..).zip(Lines(Some(text))) {
        machine = answer(rt, out, machine, number, line)?;
    }
    Ok(())
}

// Runs a script from a file, or from standard input.
pub fn run(rt: &HostRuntime, name: &str) -> anyhow::Result<()> {
    let text = match script_file::read(rt, name) {
        Ok(text) => text,
        Err(error) => {
            eprintln!(rt; "{name}: {error}")?;
            return Err(anyhow!("the script can't be read"));
        }
    };
    let mut out = BufWriter::new(rt.alloc(), rt.stdout())?;
    answer_all(rt, &mut out, text.as_str())?;
    out.flush()?;
    Ok(())
}
