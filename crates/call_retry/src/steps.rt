//! What follows an attempt.
ghost use Rattle.std.specs.Prelude.{◌≡◌, ◌≤◌, ◌<◌, ◌-◌, ◌++◌, ℕ, Option, Some, None, [], option_map};
ghost use Rattle.std.specs.Option.{option_to_list};
ghost use Rattle.aws_world.specs.Moments.{with_more};
ghost use Rattle.aws_world.specs.Told.{Rose, Tells};
ghost use Rattle.call_retry.specs.Attempts.{told_after};
ghost use Rattle.call_retry.specs.Calls.{quota_after};
ghost use Rattle.call_retry.specs.Classes.{class_at};
ghost use Rattle.call_retry.specs.Inside.{StepsTo, HasRoom, Retries, IsWordLack};
ghost use Rattle.call_retry.specs.Retries.{backoff};

use crate::call_end::CallEnd;
use crate::class::{Class, class_of_error, class_of_loss};
use crate::quota::Quota;
use crate::retry::{Decision, Retry};
use aws_world::{Clock, Dice};
use resp_parser::ServiceError;

/// Where a call stands at an attempt.
#[derive(Clone, Copy, Debug)]
pub struct Turn {
    /// The attempt's number, counted from 1.
    pub number: u32,
    /// The most attempts.
    pub limit: u32,
    /// What is given back to the quota after a good end.
    pub back: u16,
}

/// What follows an attempt.
#[derive(Debug, Drop)]
pub enum Step {
    /// The call ends so.
    Ends(CallEnd),
    /// Another attempt, which cost so much.
    Again(u16),
}

/// Ends the call with what its attempt came to, or draws a word, charges the quota and pauses.
pub fn next_step<C: Clock, D: Dice>(
    turn: Turn,
    came: CallEnd,
    quota: &mut Quota,
    clock: &mut C,
    dice: &mut D,
) -> Step
    requires number { 1 ≤ turn.number }
    requires limit { turn.number ≤ turn.limit }
    ensures made { (word : Option ℕ) × StepsTo turn quota.old came word quota.new result
        × Tells (C.told clock.old) (C.told clock.new)
        (λ before after. after ≡ with_more [] (option_to_list (option_map (backoff turn.number) word)) before)
        × Tells (D.told dice.old) (D.told dice.new) (λ before after. after ≡ before ++ option_to_list word) }
    ensures room { HasRoom turn result }
    ensures clock_later { C.faults clock.old ≤ C.faults clock.new }
    ensures dice_later { D.faults dice.old ≤ D.faults dice.new }
    ensures no_word { IsWordLack came result → Rose (D.faults dice.old) (D.faults dice.new) }
{
    match Retry::decide(class_at(&came), turn.number, turn.limit, quota.left()) {
        Decision::End => Step::Ends(ended(turn, came, quota)),
        Decision::Again(cost) => retried(turn.number, cost, quota, clock, dice),
    }
}

/// Draws a word for a retry, charges the quota and pauses.
fn retried<C: Clock, D: Dice>(
    number: u32,
    cost: u16,
    quota: &mut Quota,
    clock: &mut C,
    dice: &mut D,
) -> Step
    requires number { 1 ≤ number }
    requires cost { cost ≤ quota.old }
    ensures made { (word : Option ℕ) × Retries cost quota.old word quota.new result
        × Tells (C.told clock.old) (C.told clock.new)
        (λ before after. after ≡ with_more [] (option_to_list (option_map (backoff number) word)) before)
        × Tells (D.told dice.old) (D.told dice.new) (λ before after. after ≡ before ++ option_to_list word) }
    ensures clock_later { C.faults clock.old ≤ C.faults clock.new }
    ensures dice_later { D.faults dice.old ≤ D.faults dice.new }
    ensures no_word { result ≡ Step.Ends CallEnd.DiceFault → Rose (D.faults dice.old) (D.faults dice.new) }
{
    let Ok(word) = dice.word() else {
        return Step::Ends(CallEnd::DiceFault);
    };
    quota.take(cost);
    clock.pause(Retry::backoff(number, word));
    Step::Again(cost)
}

/// Gives back to the quota after a good end, and tells of the retries.
fn ended(turn: Turn, came: CallEnd, quota: &mut Quota) -> CallEnd
    requires number { 1 ≤ turn.number }
    requires limit { turn.number ≤ turn.limit }
    ensures told { result ≡ told_after turn.limit turn.number came }
    ensures quota { quota.new ≡ quota_after quota.old turn.back came }
{
    match came {
        CallEnd::Answer(doc, status) => {
            quota.give(turn.back);
            CallEnd::Answer(doc, status)
        }
        CallEnd::Service(error) => CallEnd::Service(with_retries(turn, error)),
        others => others,
    }
}

/// An error with the number of retries, where no more were allowed.
fn with_retries(turn: Turn, error: ServiceError) -> ServiceError
    requires { 1 ≤ turn.limit }
    ensures { CallEnd.Service result ≡ told_after turn.limit turn.number (CallEnd.Service error) }
{
    let retries = if turn.number == turn.limit {
        Some(turn.limit - 1)
    } else {
        None
    };
    ServiceError {
        code: error.code,
        message: error.message,
        status: error.status,
        retries,
    }
}

/// The class of what an attempt came to.
fn class_at(came: &CallEnd) -> Class
    ensures { result ≡ class_at came.now }
{
    match came {
        CallEnd::Answer(_, _) => Class::Good,
        CallEnd::Service(error) => class_of_error(error),
        CallEnd::Lost(fault) => class_of_loss(*fault),
        CallEnd::Cut => Class::Again(5),
        _ => Class::Final,
    }
}
