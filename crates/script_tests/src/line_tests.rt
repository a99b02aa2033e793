// Lines read, and told again in words of the tests' own.
use card::call::Call;
use drive::defect::Field;
use script::line::{DefectAt, Keys, Line, Look, SetUp};
use script::read::read_line;
use std::alloc::{AllocError, Global};
use std::process::Abort;
use std::test::Fail;

fn told_call(heap: Global, call: Call) -> Result<String, AllocError> {
    match call {
        Call::Command {
            first,
            second,
            parity,
        } => format!(in heap; "command {first} {second} {parity}"),
        Call::Halt => String::from_str(heap, "halt"),
        Call::Store { address, key, word } => format!(in heap; "store {address} {key} {word}"),
        Call::Readiness { ready } => format!(in heap; "readiness {ready}"),
        Call::Service => String::from_str(heap, "service"),
        Call::Step => String::from_str(heap, "step"),
    }
}

fn told_keys(heap: Global, keys: Keys) -> Result<String, AllocError> {
    let Keys { count, keys } = keys;
    let [first, second, .., last] = keys;
    format!(in heap; "keys {count}: {first} {second} .. {last}")
}

fn told_defect(heap: Global, defect: DefectAt) -> Result<String, AllocError> {
    let DefectAt {
        field,
        cylinder,
        head,
        place,
    } = defect;
    let field = match field {
        Field::Id => "id",
        Field::Data => "data",
    };
    format!(in heap; "{field} {cylinder} {head} {place}")
}

fn told_set_up(heap: Global, set_up: SetUp<'_>) -> Result<String, AllocError> {
    match set_up {
        SetUp::StoragePlain { size } => format!(in heap; "plain storage {size}"),
        SetUp::StorageKeyed { keys } => told_keys(heap, keys),
        SetUp::StorageFile { name } => format!(in heap; "storage of {name}"),
        SetUp::PackPlain { name } => format!(in heap; "plain pack of {name}"),
        SetUp::PackChained { name } => format!(in heap; "chained pack of {name}"),
        SetUp::PackFresh { heads } => format!(in heap; "fresh pack {heads}"),
        SetUp::Device { device } => format!(in heap; "device {device}"),
        SetUp::Parity { address } => format!(in heap; "parity {address}"),
        SetUp::Unparity { address } => format!(in heap; "unparity {address}"),
        SetUp::Defect(defect) => told_defect(heap, defect),
        SetUp::Undefect(defect) => {
            let place = told_defect(heap, defect)?;
            format!(in heap; "lift {place}")
        }
        SetUp::Fresh { cylinder, head } => format!(in heap; "fresh track {cylinder} {head}"),
    }
}

fn told_look(heap: Global, look: Look) -> Result<String, AllocError> {
    match look {
        Look::Card => String::from_str(heap, "look at card"),
        Look::Status => String::from_str(heap, "look at status"),
        Look::Words { address, count } => format!(in heap; "look at {count} words from {address}"),
        Look::Track { cylinder, head } => format!(in heap; "look at track {cylinder} {head}"),
        Look::Places => String::from_str(heap, "look at places"),
    }
}

// What a line says.
fn told(heap: Global, text: &str) -> Result<String, AllocError> {
    match read_line(text) {
        Ok(Line::Blank) => String::from_str(heap, "blank"),
        Ok(Line::SetUp(set_up)) => told_set_up(heap, set_up),
        Ok(Line::Save { name }) => format!(in heap; "save to {name}"),
        Ok(Line::Call(call)) => told_call(heap, call),
        Ok(Line::Look(look)) => told_look(heap, look),
        Err(_) => String::from_str(heap, "unreadable"),
    }
}

// Each line says what stands beside it.
fn each(rt: &impl Abort, heap: Global, cases: &[(&str, &str)]) -> Result<(), Fail> {
    for (text, due) in cases {
        let said = told(heap, text)?;
        assert!(rt; said.as_str() == *due, "{}", *text);
    }
    Ok(())
}

// No line can be read.
fn none(rt: &impl Abort, heap: Global, lines: &[&str]) -> Result<(), Fail> {
    for line in lines {
        let said = told(heap, line)?;
        assert!(rt; said.as_str() == "unreadable", "{}", *line);
    }
    Ok(())
}

#[test]
fn calls(rt: HostRuntime) -> Result<(), Fail> {
    each(
        &rt,
        rt.alloc(),
        &[
            ("command 7000 0100", "command 28672 256 true"),
            ("command 0 ffff", "command 0 65535 true"),
            ("command fFfF 00000000000A bad", "command 65535 10 false"),
            ("step", "step"),
            ("service", "service"),
            ("ready", "readiness true"),
            ("unready", "readiness false"),
            ("halt", "halt"),
            ("store 100 0 0005", "store 256 0 5"),
            ("store FFFFF ff FFFF", "store 1048575 255 65535"),
            ("store 0 0 0", "store 0 0 0"),
        ],
    )
}

#[test]
fn storages_and_packs(rt: HostRuntime) -> Result<(), Fail> {
    each(
        &rt,
        rt.alloc(),
        &[
            ("storage plain 65536", "plain storage 65536"),
            ("storage plain 4294967295", "plain storage 4294967295"),
            ("storage keyed", "keys 0: 0 0 .. 0"),
            ("storage keyed 7 F8", "keys 2: 7 248 .. 0"),
            (
                "storage keyed 1 2 3 4 5 6 7 8 9 A B C D E F 10 11 12 13 14 15 16 17 18 19 1A 1B 1C 1D 1E 1F 20",
                "keys 32: 1 2 .. 32",
            ),
            (
                "storage keyed 1 2 3 4 5 6 7 8 9 A B C D E F 10 11 12 13 14 15 16 17 18 19 1A 1B 1C 1D 1E 1F 20 21 FF",
                "keys 34: 1 2 .. 32",
            ),
            ("storage file words.bin", "storage of words.bin"),
            ("storage file file", "storage of file"),
            ("pack plain packs/plain", "plain pack of packs/plain"),
            ("pack chained #c", "chained pack of #c"),
            ("pack plain a\tb", "plain pack of a\tb"),
            ("pack fresh 3", "fresh pack 3"),
            ("pack fresh 0004", "fresh pack 4"),
            ("save Größe.pack", "save to Größe.pack"),
        ],
    )
}

#[test]
fn marks_and_looks(rt: HostRuntime) -> Result<(), Fail> {
    each(
        &rt,
        rt.alloc(),
        &[
            ("device fF", "device 255"),
            ("parity FFFFF", "parity 1048575"),
            ("unparity 1", "unparity 1"),
            ("defect id 302 2 59", "id 302 2 59"),
            ("defect data 4294967295 0 99", "data 4294967295 0 99"),
            ("undefect id 0 0 0", "lift id 0 0 0"),
            ("undefect data 010 00 000", "lift data 10 0 0"),
            ("fresh 302 1", "fresh track 302 1"),
            ("show card", "look at card"),
            ("show status", "look at status"),
            ("show words 10000 16", "look at 16 words from 65536"),
            ("show words 0 65536", "look at 65536 words from 0"),
            ("show track 303 4294967295", "look at track 303 4294967295"),
            ("show places", "look at places"),
        ],
    )
}

#[test]
fn spaces_and_comments(rt: HostRuntime) -> Result<(), Fail> {
    each(
        &rt,
        rt.alloc(),
        &[
            ("", "blank"),
            ("    ", "blank"),
            ("#", "blank"),
            ("  # anything: 12 ..", "blank"),
            ("#step", "blank"),
            ("  step", "step"),
            ("step   ", "step"),
            ("   store    2   0  7  ", "store 2 0 7"),
        ],
    )
}

#[test]
fn numbers_out_of_range(rt: HostRuntime) -> Result<(), Fail> {
    none(
        &rt,
        rt.alloc(),
        &[
            "command 10000 0",
            "command 0 10000",
            "store 100000 0 0",
            "store 0 100 0",
            "store 0 0 10000",
            "store 0 0 FFFFFFFFFFFFFFFFF",
            "device 100",
            "parity 100000",
            "storage plain 4294967296",
            "storage plain A",
            "storage keyed 1 100",
            "pack fresh 99999999999999999999",
            "fresh 4294967296 0",
            "show words 100000 1",
            "show words 0 65537",
            "show track 0 4294967296",
        ],
    )
}

#[test]
fn no_digits(rt: HostRuntime) -> Result<(), Fail> {
    none(
        &rt,
        rt.alloc(),
        &[
            "command +1 0",
            "command -1 0",
            "command X10 0",
            "command 0x10 0",
            "command g 0",
            "command 1. 0",
            "storage plain +2",
            "storage plain 1_000",
            "store 0\t0 0 0",
            "device ٣",
        ],
    )
}

#[test]
fn words_missing_or_too_many(rt: HostRuntime) -> Result<(), Fail> {
    none(
        &rt,
        rt.alloc(),
        &[
            "command",
            "command 0",
            "command 0 0 good",
            "command 0 0 bad bad",
            "step 1",
            "step #",
            "ready now",
            "store 0 0",
            "store 0 0 0 0",
            "storage",
            "storage plain",
            "storage plain 2 2",
            "storage file",
            "storage file a b",
            "pack plain",
            "pack fresh 2 3",
            "device",
            "parity",
            "parity 0 0",
            "defect id 0 0",
            "defect id 0 0 0 0",
            "fresh 0",
            "save",
            "save a b",
            "show",
            "show card card",
            "show words 0",
            "show track 0",
        ],
    )
}

#[test]
fn unknown_words(rt: HostRuntime) -> Result<(), Fail> {
    none(
        &rt,
        rt.alloc(),
        &[
            "Step",
            "READY",
            "step\t",
            "\tstep",
            "\t",
            "steps",
            "ste",
            "reset",
            "command 0 0 Bad",
            "storage Plain 2",
            "storage none",
            "pack file a",
            "defect ids 0 0 0",
            "defect Data 0 0 0",
            "show it",
            "show Card",
            "step\r",
        ],
    )
}
