// The paper's numbers of verdicts and answers.
#![tactic(auto)]

ghost use Rattle.std.specs.Prelude.{◌≡◌};
ghost use Rattle.paper.specs.Numbers.{verdict_number, kind, answer_task};

use paper::{Answer, NOT_REFUSED, Refusal};

// The paper's number of a verdict: 0 where nothing is refused.
pub fn number_of_verdict(v: Result<(), Refusal>) -> u16
    ensures { result ≡ verdict_number v }
{
    match v {
        Ok(()) => NOT_REFUSED,
        Err(r) => u16::from(r),
    }
}

// The paper's number of an answer's kind, as C is told it: an enum whose variants have fields has no number of its own.
pub fn kind_of(a: Answer) -> u16
    ensures { result ≡ kind a }
{
    match a {
        Answer::Idle => 0,
        Answer::ErrorStop(_) => 1,
        Answer::TurnPassed(_) => 2,
        Answer::ServiceDone(_) => 3,
        Answer::ServiceWaits(_) => 4,
        Answer::ServiceFaulted(_) => 5,
        Answer::OrderDone(_) => 6,
        Answer::OrderFaulted(_) => 7,
        Answer::Input(_) => 8,
        Answer::OutputDone(_) => 9,
    }
}

// The number of an answer's task: 0 where the answer is idle.
pub fn task_of(a: Answer) -> u16
    ensures { result ≡ answer_task a }
{
    match a {
        Answer::Idle => 0,
        Answer::ErrorStop(t)
        | Answer::TurnPassed(t)
        | Answer::ServiceDone(t)
        | Answer::ServiceWaits(t)
        | Answer::ServiceFaulted(t)
        | Answer::OrderDone(t)
        | Answer::OrderFaulted(t)
        | Answer::Input(t)
        | Answer::OutputDone(t) => t.0,
    }
}
