ghost use Rattle.std.specs.Prelude.{◌≡◌, List, ℕ};
ghost use Rattle.orc_jobs.specs.{JobValue.{IsJobValue}, Numbers.{SpellsNumbers}, declared.line.Line.{Line}};

/// A law, with nothing to run: a text spells one list of numbers at most, and a line has one value
/// at most.
pub fn values_are_determined()
    ensures numbers { (a b text : List ℕ) → SpellsNumbers a text → SpellsNumbers b text → a ≡ b }
    ensures value { (line : Line) (a b : ℕ) → IsJobValue line a → IsJobValue line b → a ≡ b }
{}
