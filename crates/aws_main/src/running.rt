ghost use Rattle.std.specs.Prelude.{◌≡◌, ◌≤◌, false, None, Some, IfSome};
ghost use Rattle.aws_world.specs.Told.{Tells, Rose};
ghost use Rattle.aws_main.specs.Causes.{status_of, IsFileFault, IsLost, IsOutFault};
ghost use Rattle.aws_main.specs.Course.{Course, IsCourse, Connects, EndsIn, Prints, IsUnhindered, IsDoneUnlessMemory};
ghost use Rattle.aws_main.specs.Messages.{Says, message_bytes};

use crate::answering::answer;
use crate::causes::{Cause, Ending};
use crate::messages::say;
use crate::planning::plan;
use crate::sinks::write_all;
use aws_world::{Clock, Dice, Env, Files, Link, Sink};
use json_doc::{List, Text};
use std::alloc::Global;

/// Does all that the program does. `words` are those after the program's name. Output goes to
/// `out` and the message of an ending that isn't `Done` to `err`.
pub fn run<F: Files, L: Link, C: Clock, D: Dice, O: Sink, E: Sink>(
    alloc: Global,
    words: &List<Text>,
    env: &Env,
    files: &mut F,
    link: &mut L,
    _clock: &mut C,
    _dice: &mut D,
    out: &mut O,
    err: &mut E,
) -> Ending
    requires none_live { L.live link.old ≡ false }
    ensures none_live { L.live link.new ≡ false }

    // What was sent, why it ended and what was printed are those of one course of the line.
    ensures course { (course : Course) × IsCourse words.now env.now.pairs (F.told files.old) course
        × EndsIn course result.cause
        × Tells (L.told link.old) (L.told link.new) (Connects course)
        × Tells (O.told out.old) (O.told out.new) (Prints course result.cause) }
    ensures says { Tells (E.told err.old) (E.told err.new)
        (Says (Rose (E.faults err.old) (E.faults err.new)) (message_bytes words.now result.cause)) }

    // Where nothing keeps the command from its end, and neither a file nor standard output fails, it is
    // done.
    ensures complete { IfSome (F.told files.old) (λ held. IfSome (L.told link.old) (λ before. IfSome (L.told link.new) (λ after.
        IsUnhindered words.now env.now.pairs (Some held) before after
        → ¬ Rose (F.faults files.old) (F.faults files.new) → ¬ Rose (O.faults out.old) (O.faults out.new)
        → IsDoneUnlessMemory result.cause))) }

    ensures status { result.status ≡ status_of result.cause }
    ensures no_walk { result.next ≡ None }
    ensures no_items { result.items ≡ 0 }
    ensures file_fault { IsFileFault result.cause → Rose (F.faults files.old) (F.faults files.new) }
    ensures lost { IsLost result.cause → Rose (L.faults link.old) (L.faults link.new) }
    ensures out_fault { IsOutFault result.cause → Rose (O.faults out.old) (O.faults out.new) }
    ensures no_moment { C.told _clock.new ≡ C.told _clock.old }
    ensures no_word { D.told _dice.new ≡ D.told _dice.old }

    // Whatever comes, the files hold what they held and no count of faults falls.
    ensures kept { F.told files.new ≡ F.told files.old }
    ensures files_later { F.faults files.old ≤ F.faults files.new }
    ensures link_later { L.faults link.old ≤ L.faults link.new }
    ensures out_later { O.faults out.old ≤ O.faults out.new }
    ensures err_later { E.faults err.old ≤ E.faults err.new }
    ensures clock_later { C.faults _clock.old ≤ C.faults _clock.new }
    ensures dice_later { D.faults _dice.old ≤ D.faults _dice.new }
{
    let cause = work(alloc, words.as_slice(), env, files, link, out);
    say(err, &cause, words.as_slice());
    Ending {
        status: cause.status(),
        cause,
        next: None,
        items: 0,
    }
}

fn work<F: Files, L: Link, O: Sink>(
    alloc: Global,
    words: &[Text],
    env: &Env,
    files: &mut F,
    link: &mut L,
    out: &mut O,
) -> Cause
    requires none_live { L.live link.old ≡ false }
    ensures none_live { L.live link.new ≡ false }
    ensures course { (course : Course) × IsCourse words.now env.now.pairs (F.told files.old) course
        × EndsIn course result
        × Tells (L.told link.old) (L.told link.new) (Connects course)
        × Tells (O.told out.old) (O.told out.new) (Prints course result) }
    ensures file_fault { IsFileFault result → Rose (F.faults files.old) (F.faults files.new) }
    ensures lost { IsLost result → Rose (L.faults link.old) (L.faults link.new) }
    ensures out_fault { IsOutFault result → Rose (O.faults out.old) (O.faults out.new) }
    ensures kept { F.told files.new ≡ F.told files.old }
    ensures files_later { F.faults files.old ≤ F.faults files.new }
    ensures link_later { L.faults link.old ≤ L.faults link.new }
    ensures out_later { O.faults out.old ≤ O.faults out.new }
{
    let planned = match plan(alloc, words, env, files) {
        Ok(planned) => planned,
        Err(refusal) => return refusal.into_cause(),
    };
    let text = match answer(alloc, &planned, link) {
        Ok(text) => text,
        Err(end) => return end.into_cause(),
    };
    match write_all(out, text.as_str().as_bytes()) {
        Ok(()) => Cause::Done,
        Err(_) => Cause::OutFault,
    }
}

#[cfg(test)]
mod tests;
