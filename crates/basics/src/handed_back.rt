// What a call was given and did not take, with the reason.
use crate::refusal::Refusal;

#[derive(Drop)]
pub struct HandedBack<T> {
    pub refusal: Refusal,
    pub given: T,
}
