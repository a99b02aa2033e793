// Calls, answers and refusals printed.
use answers::answer::{Answer, CommandRefusal, Exception};
use answers::waiting::Waiting;
use basics::fault::Fault;
use basics::refusal::Refusal;
use card::call::Call;
use script::hex::{Address, Byte, Sum, Word};
use script::line::Line;
use script::printed::{CallLine, RefusedLine, answer_line, can_say};
use script::read::read_line;
use std::alloc::{AllocError, Global};
use std::process::Abort;
use std::test::Fail;

// A line's call, printed.
fn again(heap: Global, text: &str) -> Result<String, AllocError> {
    match read_line(text) {
        Ok(Line::Call(call)) => format!(in heap; "{}", CallLine(call)),
        _ => String::from_str(heap, "no call"),
    }
}

#[test]
fn calls_are_printed(rt: HostRuntime) -> Result<(), Fail> {
    let cases = [
        ("command 7000 100", "command 7000 0100"),
        (" command ab  CDEF bad", "command 00AB CDEF bad"),
        ("store 1 2 3", "store 00001 02 0003"),
        ("store fffff ff ffff", "store FFFFF FF FFFF"),
        ("ready ", "ready"),
        ("unready", "unready"),
        ("halt", "halt"),
        ("service", "service"),
        ("step", "step"),
        ("# step", "no call"),
    ];
    for (text, due) in &cases {
        let line = again(rt.alloc(), text)?;
        assert!(rt; line.as_str() == *due, "{}", *text);
    }
    Ok(())
}

// The answer of a call, printed.
fn answers_as(
    rt: &impl Abort,
    heap: Global,
    call: Call,
    answer: Answer,
    due: &str,
) -> Result<(), Fail> {
    let line = format!(in heap; "{}", answer_line(call, answer))?;
    assert!(rt; line.as_str() == due, "{}", due);
    Ok(())
}

#[test]
fn commands_and_services(rt: HostRuntime) -> Result<(), Fail> {
    let heap = rt.alloc();
    let command = Call::Command {
        first: 0,
        second: 0,
        parity: true,
    };
    answers_as(
        &rt,
        heap,
        command,
        Answer::Accepted { word: 0xAA },
        "command: code 7 word 00AA",
    )?;
    let refusal = CommandRefusal::InterfaceDataCheck;
    answers_as(
        &rt,
        heap,
        command,
        Answer::CommandRefused { refusal },
        "command: refused 2 interface data check code 5",
    )?;
    let waiting = Waiting {
        code: 2,
        id_word: 0x1003,
    };
    answers_as(
        &rt,
        heap,
        Call::Service,
        Answer::Interrupt { waiting },
        "service: code 2 id 1003",
    )?;
    answers_as(
        &rt,
        heap,
        Call::Service,
        Answer::NothingWaits,
        "service: refused 6 nothing waits",
    )
}

#[test]
fn quiet_calls(rt: HostRuntime) -> Result<(), Fail> {
    let heap = rt.alloc();
    let ready = Call::Readiness { ready: true };
    let unready = Call::Readiness { ready: false };
    let store = Call::Store {
        address: 0,
        key: 0,
        word: 0,
    };
    answers_as(&rt, heap, ready, Answer::Done, "ready: ok")?;
    answers_as(&rt, heap, unready, Answer::Done, "unready: ok")?;
    answers_as(&rt, heap, Call::Halt, Answer::Done, "halt: ok")?;
    answers_as(&rt, heap, store, Answer::Done, "store: ok")?;
    let fault = Fault::ProtectCheck;
    answers_as(
        &rt,
        heap,
        store,
        Answer::StoreRefused { fault },
        "store: refused 14 protect check",
    )
}

// A step that ended by an exception, printed.
fn ends_as(rt: &impl Abort, heap: Global, exception: Exception, due: &str) -> Result<(), Fail> {
    let ended = Answer::Ended {
        exception,
        block: 0x0ABC,
    };
    answers_as(rt, heap, Call::Step, ended, due)
}

#[test]
fn steps(rt: HostRuntime) -> Result<(), Fail> {
    let heap = rt.alloc();
    answers_as(&rt, heap, Call::Step, Answer::Stepped, "step: 0")?;
    answers_as(&rt, heap, Call::Step, Answer::Idle, "step: refused 5 idle")?;
    ends_as(
        &rt,
        heap,
        Exception::SpecificationCheck,
        "step: 11 specification check layer channel dcb 0ABC",
    )?;
    ends_as(
        &rt,
        heap,
        Exception::Storage {
            fault: Fault::InvalidAddress,
            address: 0x10000,
        },
        "step: 13 invalid address layer storage dcb 0ABC word 10000",
    )?;
    ends_as(
        &rt,
        heap,
        Exception::EndOfTrack { sector: 59 },
        "step: 17 end of track layer drive dcb 0ABC sector 59",
    )?;
    ends_as(
        &rt,
        heap,
        Exception::NotReady,
        "step: 19 not ready layer drive dcb 0ABC",
    )
}

#[test]
fn numbers_and_refusals(rt: HostRuntime) -> Result<(), Fail> {
    let heap = rt.alloc();
    let line = format!(in heap; "{} {} {}", Byte(0x0F), Word(0xBEE), Sum(0x89ABCDEF))?;
    assert!(rt; line.as_str() == "0F 0BEE 89ABCDEF");
    let line = format!(in heap; "{} {}", Address(0xFFFFF), Address(0x100000))?;
    assert!(rt; line.as_str() == "FFFFF 00100000");
    let line = format!(in heap; "{}", RefusedLine(Refusal::NoSuchPlace))?;
    assert!(rt; line.as_str() == "refused 28 no such place");
    Ok(())
}

#[test]
fn addresses_that_lines_can_say(rt: HostRuntime) {
    let last = Call::Store {
        address: 0xFFFFF,
        key: 255,
        word: 0,
    };
    let next = Call::Store {
        address: 0x100000,
        key: 0,
        word: 0,
    };
    assert!(rt; can_say(last));
    assert!(rt; !can_say(next));
    assert!(rt; can_say(Call::Halt));
}
