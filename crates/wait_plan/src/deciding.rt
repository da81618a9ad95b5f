ghost use Rattle.std.specs.Prelude.{◌≡◌, length};
ghost use Rattle.wait_plan.specs.Matches.{first_match};

use model_files::State;

/// The state of the first acceptor that matched.
pub fn classify(states: &[State], matched: &[bool]) -> Option<State>
    requires { length states.now ≡ length matched.now }
    ensures { result ≡ first_match states.now matched.now }
{
    for (at, state) in states.iter().enumerate() {
        if matched[at] {
            return Some(*state);
        }
    }
    None
}
