ghost use Rattle.std.specs.Prelude.{◌≡◌, ◌↔◌, ◌⊎◌, Some, [], ◌∷◌, ◌++◌, IfOk, OnOk, OnErr, IsErr};
ghost use Rattle.aws_world.specs.Told.{HasCause, one_more};
ghost use Rattle.aws_world.specs.FaultPlan.{FailsNext, AddsCall, begin};
ghost use Rattle.aws_world.specs.ListDice.{words_given, words_left, plan_of};

use crate::fault_plan::FaultPlan;
use crate::{Dice, DiceFault};
use std::alloc::Global;
use texts::List;

/// A list of words that stands for random ones. It tells the words given at all times, since they
/// are the front of that list.
#[derive(Debug, Drop)]
pub struct ListDice {
    words: List<u32>,
    at: usize,
    plan: FaultPlan,
}

impl ListDice {
    /// These words, to be given in their order; calls of these numbers fail. It takes no memory.
    pub fn new(_alloc: Global, words: List<u32>, fails: List<u64>) -> ListDice
        ensures told { ⟦<ListDice as Dice>⟧.told result ≡ Some [] }
        ensures faults { ⟦<ListDice as Dice>⟧.faults result ≡ 0 }
        ensures left { words_left result ≡ words }
        ensures plan { plan_of result ≡ begin fails }
    {
        ListDice {
            words,
            at: 0,
            plan: FaultPlan::new(fails),
        }
    }

    /// The words given so far.
    pub fn given(&self) -> &[u32]
        ensures { ⟦<ListDice as Dice>⟧.told self.now ≡ Some result.now }
    {
        let words = self.words.as_slice();
        if self.at <= words.len() {
            &words[..self.at]
        } else {
            words
        }
    }

    pub fn faults(&self) -> u64
        ensures { result ≡ ⟦<ListDice as Dice>⟧.faults self.now }
    {
        self.plan.faults()
    }
}

impl Dice for ListDice {
    ghost told = { λ dice. Some (words_given dice) };

    ghost faults = { λ dice. (plan_of dice).faults };

    /// The next word of the list. A call that fails gives none, and so does one after the last.
    fn word(&mut self) -> Result<u32, DiceFault>
        ensures given { IfOk result (λ word. words_given self.new ≡ words_given self.old ++ word ∷ []) }
        ensures failed { OnErr result (words_given self.new ≡ words_given self.old) }
        ensures cause { HasCause (plan_of self.old).faults (plan_of self.new).faults result }

        // What this list does beyond any source of words.
        ensures next { IfOk result (λ word. words_left self.old ≡ word ∷ words_left self.new) }
        ensures left { OnErr result (words_left self.new ≡ words_left self.old) }
        ensures planned { IsErr result ↔ (FailsNext (plan_of self.old) ⊎ (words_left self.old ≡ [])) }
        ensures counted { AddsCall (plan_of self.old) (plan_of self.new) }
        ensures risen { OnErr result ((plan_of self.new).faults ≡ one_more (plan_of self.old).faults) }
        ensures level { OnOk result ((plan_of self.new).faults ≡ (plan_of self.old).faults) }
    {
        if self.plan.next_fails() {
            self.plan.count_fault();
            return Err(DiceFault);
        }
        let Some(word) = self.words.as_slice().get(self.at) else {
            self.plan.count_fault();
            return Err(DiceFault);
        };
        let word = *word;
        self.at += 1;
        Ok(word)
    }
}
