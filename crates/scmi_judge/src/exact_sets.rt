//! What a set of platforms says of a record, if it has exactly those that may be behind it.
ghost use Rattle.std.specs.Prelude.{◌≡◌, ◌≢◌, ◌∷◌, [], List};
ghost use Rattle.scmi_plan.specs.Board.{Board};
ghost use Rattle.scmi_judge.specs.Behind.{HasLegalHistory};
ghost use Rattle.scmi_judge.specs.Exact.{AreClosed, AreExact, HaveGiven, HaveKept};
ghost use Rattle.scmi_judge.specs.Guess.{IsGuess};
ghost use Rattle.scmi_judge.specs.declared.guess.Guess.{Guess};
ghost use Rattle.scmi_judge.specs.declared.unseen.Unseen.{Unseen};
ghost use Rattle.scmi_judge.specs.declared.entry.Entry.{Entry};

/// What every set of platforms says of a record, if it has exactly the platforms that may be behind
/// it, whoever made it (specs/Exact.antt). At the start the platform of the board is exactly that.
/// Let a set be exact for some entries. If all that its platforms move on to by events that no
/// entry shows are added, and those that give the next entry are kept, as they are after it, then
/// what is left is exact for the entries with that one. If something is left, a legal history is
/// behind these entries, and if nothing is left none is. `may` is what may happen that no entry
/// shows. The function does nothing: its clauses are the laws.
pub fn every_exact_set()
    ensures start { (may : Unseen) (board : Board) (g : Guess)
        → IsGuess may board g [] [] → AreExact may board [] (g ∷ []) }
    ensures next { (may : Unseen) (board : Board) (entries : List Entry) (entry : Entry)
        (guesses all left : List Guess) → AreExact may board entries guesses
        → HaveKept may guesses all → AreClosed may all
        → HaveGiven may all entry left → AreExact may board (entry ∷ entries) left }
    ensures right { (may : Unseen) (board : Board) (entries : List Entry)
        (guesses : List Guess) → AreExact may board entries guesses → guesses ≢ []
        → HasLegalHistory may board entries }
    ensures wrong { (may : Unseen) (board : Board) (entries : List Entry)
        (guesses : List Guess) → AreExact may board entries guesses → guesses ≡ []
        → ¬ (HasLegalHistory may board entries) }
{
    // Nothing to do: the clauses hold of every set.
}
