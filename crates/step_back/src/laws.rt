//! What follows for all uses of a debugger.
ghost use Rattle.std.specs.Prelude.{◌≡◌, ◌≤◌, ◌+◌, ◌-◌, ℕ, List, [], ◌∷◌, ◌++◌, None, take, length};
ghost use Rattle.lcm_machine.specs.Run.{Run, next_state};
ghost use Rattle.step_back.specs.Seen.{Debugging};
ghost use Rattle.step_back.specs.Debug.{debugging_from, forward, back};
ghost use Rattle.step_back.specs.Calls.{Call, after_all, Remembers, states, latest};

/// After any calls a debugger is in the plain run's state that its count says.
///
/// It remembers at most its depth of that run's states just before. They are those after one step less, after
/// two less, and so on.
pub fn calls_remember()
    ensures { (s : Run) (depth : ℕ) (calls : List Call) → s.count ≡ 0
        → Remembers s (after_all calls (debugging_from s depth)) }
{}

/// Unless the machine had ended, a step forward and one back restore a debugger's state, if its depth isn't
/// 0.
pub fn forward_and_back()
    ensures { (d : Debugging) → 1 ≤ d.depth → d.now.end ≡ None → (back (forward d)).now ≡ d.now }
{}

/// A step forward appends a state and drops the first of too many; one back drops the last of several.
///
/// These are a debugger's states, the newest last; before the step forward the machine hadn't ended.
pub fn states_are_listed()
    ensures forward { (d : Debugging) → d.now.end ≡ None
        → states (forward d) ≡ latest (d.depth + 1) (states d ++ next_state d.now ∷ []) }
    ensures back { (d : Debugging) → 2 ≤ length (states d)
        → states (back d) ≡ take (length (states d) - 1) (states d) }
{}
