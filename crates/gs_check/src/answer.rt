ghost use Rattle.std.specs.Prelude.{◌≡◌, ◌≢◌, ◌≤◌, Err, IfErr, IfOk, List, Ok, Some, ℕ, length};
ghost use Rattle.gs_scenario.specs.declared.fault.ScenarioFault.TheVariants.{NoMemory};
ghost use Rattle.gs_scenario.specs.Refusal.{number_of};
ghost use Rattle.gs_check.specs.Program.{Answers, IsRefusalText, no_memory_answer};
ghost use Rattle.gs_check.specs.Readings.{AnswersText, AnswersUnread, RefusesAs};
ghost use Rattle.gs_plan.specs.Limits.{longest_input};
ghost use Rattle.gs_plan.specs.declared.limits.Limits.{Limits as LimitsValue};

use crate::first_line::first_line;
use crate::reasons::reason;
use crate::summary::summary;
use gs_plan::Limits;
use gs_scenario::ScenarioFault;
use gs_streams::{ReadFault, input_too_long, plan_from};
use std::alloc::{AllocError, Global};

/// What an answer says about a scenario.
#[derive(Clone, Copy, Debug, PartialEq, Eq)]
pub enum Verdict {
    /// The input describes a plan.
    Accepted,
    /// The input is refused.
    Refused,
    /// Nothing: the program was out of memory for the input, for the plan or for the answer's text.
    NoMemory,
}

/// What the program says about an input.
#[derive(Debug, Drop)]
pub struct Answer {
    pub verdict: Verdict,
    pub text: Vec<u8>,
}

/// The answer when out of memory for any other.
pub const NO_MEMORY_ANSWER: &str =
    "32\nthere is not enough memory to read the scenario, or to say what is wrong with it\n";

/// Why no answer was made for the input.
#[derive(Clone, Copy, Debug, PartialEq, Eq)]
pub enum NoAnswer {
    /// A read of the input failed, or it was read `MOST_READS` times and had not ended.
    InputFailed,
    /// Out of memory for the input, for the plan or for the answer.
    NoMemory,
}

/// Returns the answer to what was read of an input, which is a scenario within these limits.
///
/// # Errors
/// `InputFailed` if a read failed, or if the input had not ended after `MOST_READS` reads. `NoMemory` when out of memory.
pub fn answer_after(
    alloc: Global,
    limits: Limits,
    reading: Result<Vec<u8>, ReadFault>,
) -> Result<Answer, NoAnswer>
    requires short { IfOk reading (λ bytes. length bytes.items ≤ longest_input limits) }
    ensures read { IfOk reading (λ bytes. AnswersText limits bytes.items result) }
    ensures unread { IfErr reading (λ fault. AnswersUnread limits fault result) }
{
    match reading {
        Ok(bytes) => answer_of(alloc, limits, &bytes),
        Err(fault) => answer_unread(alloc, limits, fault),
    }
}

/// Returns the answer to an input that was not read to its end.
fn answer_unread(alloc: Global, limits: Limits, fault: ReadFault) -> Result<Answer, NoAnswer>
    ensures { AnswersUnread limits fault result }
{
    match fault {
        ReadFault::Failed => Err(NoAnswer::InputFailed),
        ReadFault::TooLong => refusal_of(alloc, b"", &input_too_long(alloc, limits)),
        ReadFault::NoMemory => Err(NoAnswer::NoMemory),
    }
}

/// Returns the answer to the bytes of a whole input.
fn answer_of(alloc: Global, limits: Limits, bytes: &[u8]) -> Result<Answer, NoAnswer>
    requires { length bytes.now ≤ longest_input limits }
    ensures { AnswersText limits bytes.now result }
{
    match plan_from(alloc, limits, bytes) {
        Ok(plan) => answered(Verdict::Accepted, summary(alloc, &plan)),
        Err(fault) => refusal_of(alloc, bytes, &fault),
    }
}

/// Returns the answer to a scenario that is refused. Where the bytes are no TOML, the words are made from them.
fn refusal_of(alloc: Global, bytes: &[u8], fault: &ScenarioFault) -> Result<Answer, NoAnswer>
    ensures refuses { RefusesAs fault.now result }
    ensures memory { fault.now ≡ NoMemory → result ≡ Err NoAnswer.NoMemory }
{
    refused(fault, refusal_text(alloc, bytes, fault))
}

/// Returns the answer to a refused scenario, from the text that was made of its refusal.
///
/// # Errors
/// `NoMemory` if memory ran out, for the plan or for the text.
fn refused(fault: &ScenarioFault, made: Result<Vec<u8>, AllocError>) -> Result<Answer, NoAnswer>
    ensures text { number_of fault.now ≢ 32
        → IfOk made (λ text. result ≡ Ok (record { verdict = Verdict.Refused; text = text })) }
    ensures none { IfErr made (λ _. result ≡ Err NoAnswer.NoMemory) }
    ensures memory { number_of fault.now ≡ 32 → result ≡ Err NoAnswer.NoMemory }
{
    if fault.number() == 32 {
        return Err(NoAnswer::NoMemory);
    }
    answered(Verdict::Refused, made)
}

/// Returns the answer with a verdict and its text, unless it was out of memory for the text.
fn answered(verdict: Verdict, made: Result<Vec<u8>, AllocError>) -> Result<Answer, NoAnswer>
    ensures text { IfOk made (λ text. result ≡ Ok (record { verdict = verdict; text = text })) }
    ensures none { IfErr made (λ _. result ≡ Err NoAnswer.NoMemory) }
{
    match made {
        Ok(text) => Ok(Answer { verdict, text }),
        Err(_) => Err(NoAnswer::NoMemory),
    }
}

/// Returns the text of a refusal: its first line, and then its reason in words.
fn refusal_text(alloc: Global, bytes: &[u8], fault: &ScenarioFault) -> Result<Vec<u8>, AllocError>
    ensures { IfOk result (λ text. IsRefusalText fault.now text.items) }
{
    let mut text = first_line(alloc, fault)?;
    let words = reason(alloc, bytes, fault)?;
    text.extend_from_slice(words.as_bytes())?;
    Ok(text)
}

/// No input is both accepted and refused within the same limits.
pub fn no_input_is_accepted_and_refused()
    ensures { (limits : LimitsValue) (bytes one other : List ℕ)
        → Answers limits Verdict.Accepted (Some bytes) one → Answers limits Verdict.Refused (Some bytes) other → ⊥ }
{}

/// The answer when out of memory is the text that the definitions give.
pub fn answer_without_memory()
    ensures { NO_MEMORY_ANSWER.now ≡ no_memory_answer }
{}
