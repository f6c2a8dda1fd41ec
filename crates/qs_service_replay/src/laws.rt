//! Laws of scripts.

ghost use Rattle.std.specs.Prelude.{◌≡◌, ℕ, List};
ghost use Rattle.qs_service_connections.specs.Step.{Event};
ghost use Rattle.qs_service_replay.specs.Script.{IsScript, IsOtherLine};

/// A text is a script of one list of events at most; one that has a line that tells no event is none; and one line of a text at most is the
/// first that tells none.
pub fn scripts_are_unique()
    ensures events { (text : List ℕ) (a b : List Event) → IsScript text a → IsScript text b
        → a ≡ b }
    ensures script { (text : List ℕ) (events : List Event) (n : ℕ) → IsScript text events
        → ¬ IsOtherLine text n }
    ensures line { (text : List ℕ) (a b : ℕ) → IsOtherLine text a → IsOtherLine text b → a ≡ b }
{}
