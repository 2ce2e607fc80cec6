// The answer of a step of the work.
use crate::refusal::Refusal;

/// What a step answers: its value, or why the file is refused there.
#[derive(Drop)]
pub enum Step<T> {
    Passed(T),
    Refused(Refusal),
}
