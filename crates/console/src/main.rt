// The console: `console run SCRIPT` answers the lines of a script, and `console` alone does a task of its own.
#![tactic(auto)]

mod begin;
mod demonstration;
mod heal;
mod lines;
mod looks;
mod recipe;
mod save;
mod script_file;
mod set_up;
mod show;
mod undone;

use std::env;
use std::env::Args;
use thiserror::Error;

const USAGE: &str = "usage: console [run SCRIPT], where - is standard input";

// What the arguments ask for.
#[derive(Drop)]
enum Task {
    Demonstrate,
    // the script's name
    Run(String),
}

#[derive(Debug, Drop, Error)]
enum Misuse {
    #[error("the first word is not run")]
    OtherWord,
    #[error("run takes the name of a script")]
    NoName,
    #[error("run takes one name")]
    MoreNames,
}

fn asked_for(mut args: Args) -> Result<Task, Misuse> {
    let _ = args.next();
    match args.next() {
        None => return Ok(Task::Demonstrate),
        Some(word) if word.as_str() == "run" => {}
        Some(_) => return Err(Misuse::OtherWord),
    }
    match (args.next(), args.next()) {
        (Some(name), None) => Ok(Task::Run(name)),
        (None, _) => Err(Misuse::NoName),
        (Some(_), Some(_)) => Err(Misuse::MoreNames),
    }
}

fn perform(rt: &HostRuntime) -> anyhow::Result<()> {
    match asked_for(env::args(rt)?) {
        Ok(Task::Demonstrate) => demonstration::run(rt),
        Ok(Task::Run(name)) => lines::run(rt, name.as_str()),
        Err(misuse) => {
            eprintln!(rt; "{USAGE}")?;
            Err(misuse.into())
        }
    }
}

fn main(rt: HostRuntime) -> anyhow::Result<()> {
    perform(&rt)
}
