// The first words of lines.
ghost use Rattle.std.specs.Prelude.{◌≡◌};
ghost use Rattle.script.specs.Verbs.{call_text, set_up_text, verb_text, verb_of};
ghost use Rattle.script.specs.Printings.{call_verb};

use crate::reason::Reason;
use crate::take::FromWord;
use card::call::Call;

// of a call
#[derive(Clone, Copy)]
pub(crate) enum CallVerb {
    Command,
    Step,
    Service,
    Ready,
    Unready,
    Halt,
    Store,
}

// of a set-up line, `save` aside
#[derive(Clone, Copy)]
pub(crate) enum SetUpVerb {
    Storage,
    Pack,
    Device,
    Parity,
    Unparity,
    Defect,
    Undefect,
    Fresh,
}

#[derive(Clone, Copy)]
pub(crate) enum Verb {
    Calls(CallVerb),
    SetsUp(SetUpVerb),
    Saves,
    Shows,
}

const VERBS: [Verb; 17] = [
    Verb::Calls(CallVerb::Command),
    Verb::Calls(CallVerb::Step),
    Verb::Calls(CallVerb::Service),
    Verb::Calls(CallVerb::Ready),
    Verb::Calls(CallVerb::Unready),
    Verb::Calls(CallVerb::Halt),
    Verb::Calls(CallVerb::Store),
    Verb::SetsUp(SetUpVerb::Storage),
    Verb::SetsUp(SetUpVerb::Pack),
    Verb::SetsUp(SetUpVerb::Device),
    Verb::SetsUp(SetUpVerb::Parity),
    Verb::SetsUp(SetUpVerb::Unparity),
    Verb::SetsUp(SetUpVerb::Defect),
    Verb::SetsUp(SetUpVerb::Undefect),
    Verb::SetsUp(SetUpVerb::Fresh),
    Verb::Saves,
    Verb::Shows,
];

impl CallVerb {
    pub(crate) fn text(self) -> &'static str
        ensures { result.now ≡ call_text self }
    {
        match self {
            CallVerb::Command => "command",
            CallVerb::Step => "step",
            CallVerb::Service => "service",
            CallVerb::Ready => "ready",
            CallVerb::Unready => "unready",
            CallVerb::Halt => "halt",
            CallVerb::Store => "store",
        }
    }
}

impl SetUpVerb {
    pub(crate) fn text(self) -> &'static str
        ensures { result.now ≡ set_up_text self }
    {
        match self {
            SetUpVerb::Storage => "storage",
            SetUpVerb::Pack => "pack",
            SetUpVerb::Device => "device",
            SetUpVerb::Parity => "parity",
            SetUpVerb::Unparity => "unparity",
            SetUpVerb::Defect => "defect",
            SetUpVerb::Undefect => "undefect",
            SetUpVerb::Fresh => "fresh",
        }
    }
}

impl Verb {
    pub(crate) fn text(self) -> &'static str
        ensures { result.now ≡ verb_text self }
    {
        match self {
            Verb::Calls(verb) => verb.text(),
            Verb::SetsUp(verb) => verb.text(),
            Verb::Saves => "save",
            Verb::Shows => "show",
        }
    }
}

impl FromWord for Verb {
    type Value = Verb;

    ghost said = { verb_of };

    fn from_word(word: &str) -> Result<Verb, Reason> {
        let verb = VERBS.iter().find(|verb| word == verb.text());
        verb.copied().ok_or(Reason::UnknownWord)
    }
}

impl From<Call> for CallVerb {
    ghost from_gives = { λ call verb. verb ≡ call_verb call };

    fn from(call: Call) -> CallVerb {
        match call {
            Call::Command { .. } => CallVerb::Command,
            Call::Halt => CallVerb::Halt,
            Call::Store { .. } => CallVerb::Store,
            Call::Readiness { ready: true } => CallVerb::Ready,
            Call::Readiness { ready: false } => CallVerb::Unready,
            Call::Service => CallVerb::Service,
            Call::Step => CallVerb::Step,
        }
    }
}
