// A call, and the place for its answer.
use answers::answer::Answer;
use card::call::Call;

#[derive(Clone, Copy)]
pub struct Entry {
    pub call: Call,
    pub answer: Answer,
}
