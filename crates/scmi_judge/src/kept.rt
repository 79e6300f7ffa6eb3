//! Guesses as they were.
ghost use Rattle.std.specs.Prelude.{◌≡◌, IfErr};
ghost use Rattle.scmi_plan.specs.Board.{Board};
ghost use Rattle.scmi_judge.specs.Exact.{IsOfBoard};
ghost use Rattle.scmi_judge.specs.Window.{AreKept};

use crate::place::Place;
use crate::stop::Stop;
use std::alloc::Global;

/// Guesses as they were before an entry, to go back to.
#[derive(Drop)]
pub(crate) struct Kept {
    // None if there were more than places.
    pub guesses: Vec<Place>,
    // Places for more.
    pub spare: Vec<Place>,
}

impl Kept {
    /// No guess, and no place for one.
    pub fn new(alloc: Global) -> Kept
        ensures { (board : Board) → AreKept board result }
    {
        Kept {
            guesses: Vec::new(alloc),
            spare: Vec::new(alloc),
        }
    }

    /// One place more.
    pub fn add(&mut self, place: Place) -> Result<(), Stop>
        ensures boards { (board : Board) → AreKept board self.old
            → place.platform.board ≡ board → AreKept board self.new }
        ensures memory { IfErr result (λ stop. stop ≡ Stop.Memory) }
    {
        let Ok(()) = self.spare.push(place) else {
            return Err(Stop::Memory);
        };
        Ok(())
    }

    /// Keeps these guesses in place of others, or none of them if they are more than the places.
    /// Whether they are kept.
    pub fn keep(&mut self, guesses: &[Place]) -> Result<bool, Stop>
        requires { (board : Board) × AreKept board self.old × IsOfBoard board guesses.now }
        ensures boards { (board : Board) → AreKept board self.old → AreKept board self.new }
        ensures memory { IfErr result (λ stop. stop ≡ Stop.Memory) }
    {
        self.free()?;
        'each: for guess in guesses {
            if self.spare.is_empty() {
                self.free()?;
                return Ok(false);
            }
            self.keep_one(guess)?;
        }
        Ok(true)
    }

    /// Keeps one more, if a place is left.
    fn keep_one(&mut self, guess: &Place) -> Result<(), Stop>
        requires { (board : Board) × AreKept board self.old × (guess.now.platform.board ≡ board) }
        ensures boards { (board : Board) → AreKept board self.old → AreKept board self.new }
        ensures memory { IfErr result (λ stop. stop ≡ Stop.Memory) }
    {
        let Some(mut place) = self.spare.pop() else {
            return Ok(());
        };
        place.copy_from(guess);
        let Ok(()) = self.guesses.push(place) else {
            return Err(Stop::Memory);
        };
        Ok(())
    }

    /// Keeps none.
    pub fn free(&mut self) -> Result<(), Stop>
        requires { (board : Board) × AreKept board self.old }
        ensures boards { (board : Board) → AreKept board self.old → AreKept board self.new }
        ensures memory { IfErr result (λ stop. stop ≡ Stop.Memory) }
    {
        'each: while let Some(place) = self.guesses.pop() {
            let Ok(()) = self.spare.push(place) else {
                return Err(Stop::Memory);
            };
        }
        Ok(())
    }
}
