// The outcomes of one lane, printed: first the answers by place, then the refusals.
ghost use Rattle.std.specs.Prelude.{◌≡◌, ◌+◌, ◌-◌, ◌^◌, ◌<◌, ◌≤◌, [], ◌++◌};
ghost use Rattle.std.specs.Option.{option_to_list};
ghost use Rattle.dev_model.specs.Counts.{Counts};
ghost use Rattle.dev_model.specs.Streams.{Says};
ghost use Rattle.table_model.specs.Record.{refused_word, refusals_text};
ghost use Rattle.spatial_run.specs.Refused.{refusals_by};
ghost use Rattle.spatial_run.specs.Views.{outcome_of, outcomes_of};
ghost use Rattle.spatial_run.specs.Steps.{answers_text, answered_part, place_after, refused_part, with_command, with_upkeep};

use crate::record::Outcome;
use dev_model::{Failed, Sink};
use script_lang::{Why, print_answer, print_refused};

fn print_answered<K: Sink>(out: &mut K, place: u64, outcome: &Outcome) -> Result<(), Failed>
    ensures counts { Counts (K.fault_count out.old) (K.fault_count out.new) result }
    ensures told { Says (K.taken out.old) (K.taken out.new) (answered_part place (outcome_of outcome.now)) result }
{
    match outcome {
        Outcome::Answered { answer, .. } => print_answer(out, place, 0, answer),
        Outcome::Quiet | Outcome::Refused(_) => Ok(()),
    }
}

fn next_place(place: u64, outcome: &Outcome) -> u64
    requires { place < 2 ^ 64 - 1 }
    ensures exact { result ≡ place_after place (outcome_of outcome.now) }
    ensures bound { result ≤ place + 1 }
{
    match outcome {
        Outcome::Answered { .. } => place + 1,
        Outcome::Quiet | Outcome::Refused(_) => place,
    }
}

fn print_answers<K: Sink>(out: &mut K, outcomes: &[Outcome]) -> Result<(), Failed>
    ensures counts { Counts (K.fault_count out.old) (K.fault_count out.new) result }
    ensures told { Says (K.taken out.old) (K.taken out.new) (answers_text 0 (outcomes_of outcomes.now)) result }
{
    let mut place = 0u64;
    for outcome in outcomes {
        if let Err(e) = print_answered(out, place, outcome) {
            return Err(e);
        }
        place = next_place(place, outcome);
    }
    Ok(())
}

fn print_refusal<K: Sink>(out: &mut K, outcome: &Outcome) -> Result<(), Failed>
    ensures counts { Counts (K.fault_count out.old) (K.fault_count out.new) result }
    ensures told { Says (K.taken out.old) (K.taken out.new) (refused_part (outcome_of outcome.now)) result }
{
    match outcome {
        Outcome::Refused(why) => print_refused(out, 0, *why),
        Outcome::Answered { .. } | Outcome::Quiet => Ok(()),
    }
}

fn print_refusals<K: Sink>(out: &mut K, outcomes: &[Outcome]) -> Result<(), Failed>
    ensures counts { Counts (K.fault_count out.old) (K.fault_count out.new) result }
    ensures told { Says (K.taken out.old) (K.taken out.new) (refusals_text 0 (outcomes_of outcomes.now)) result }
{
    for outcome in outcomes {
        if let Err(e) = print_refusal(out, outcome) {
            return Err(e);
        }
    }
    Ok(())
}

/// Prints the outcomes of lane 0.
pub(crate) fn print_outcomes<K: Sink>(out: &mut K, outcomes: &[Outcome]) -> Result<(), Failed>
    ensures counts { Counts (K.fault_count out.old) (K.fault_count out.new) result }
    ensures told { Says (K.taken out.old) (K.taken out.new)
        (answers_text 0 (outcomes_of outcomes.now) ++ refusals_text 0 (outcomes_of outcomes.now)) result }
{
    if let Err(e) = print_answers(out, outcomes) {
        return Err(e);
    }
    print_refusals(out, outcomes)
}

/// For which causes steps of a run were refused: those of commands, and for damage, the device and memory those of upkeep too.
#[derive(Clone, Copy)]
pub(crate) struct Refusals {
    pub damaged: bool,
    pub device: bool,
    pub full: bool,
    pub no_index: bool,
    pub memory: bool,
}

impl Refusals {
    /// No step was refused.
    pub(crate) fn none() -> Self
        ensures { result ≡ refusals_by [] [] }
    {
        Refusals {
            damaged: false,
            device: false,
            full: false,
            no_index: false,
            memory: false,
        }
    }
}

/// One command more.
pub(crate) fn with_outcome(before: Refusals, outcome: &Outcome) -> Refusals
    ensures { result ≡ with_command before (refused_word (outcome_of outcome.now)) }
{
    let mut refusals = before;
    if let Outcome::Refused(why) = outcome {
        match why {
            Why::Damaged => refusals.damaged = true,
            Why::Fault | Why::Stopped => refusals.device = true,
            Why::Full => refusals.full = true,
            Why::NoIndex => refusals.no_index = true,
            Why::Memory => refusals.memory = true,
        }
    }
    refusals
}

/// The upkeep behind a command, with the word of its refusal if it was refused. That there was no room is no matter then: the
/// command was carried out.
pub(crate) fn with_upkeep(before: Refusals, upkeep: Option<Why>) -> Refusals
    ensures { result ≡ with_upkeep before (option_to_list upkeep) }
{
    let mut refusals = before;
    if let Some(why) = upkeep {
        match why {
            Why::Damaged => refusals.damaged = true,
            Why::Fault | Why::Stopped => refusals.device = true,
            Why::Memory => refusals.memory = true,
            Why::Full | Why::NoIndex => {}
        }
    }
    refusals
}
