// Making a board over a bank, opening it, and handing the bank back.
ghost use Rattle.std.specs.Prelude.{◌≡◌, MatchResult};
ghost use Rattle.refinement.specs.Answers.{quiet};
ghost use Rattle.refinement.specs.Refusals.{Unmoved};
ghost use Rattle.middleware.specs.Listing.{result_listed, asked_to};
ghost use Rattle.middleware.specs.Meaning.{held};
ghost use Rattle.middleware.specs.Serving.{Made, Opens, Names};
ghost use Rattle.middleware.specs.declared.fault.Asked.TheVariants.{Open};

use crate::fault::{Asked, BoardFault, asked_to};
use crate::middleware::Middleware;
use banks::Bank;
use engine::Engine;
use std::alloc::Global;

impl<B: Bank> Middleware<B> {
    /// A board that is not opened, with all memory reserved; where there is none, the bank comes back.
    // Inlined, its moves of a whole bank cost LLVM many minutes.
    #[inline(never)]
    pub fn new(heap: Global, bank: B) -> Result<Middleware<B>, B>
        ensures made { MatchResult result (λ m. Made (B.Bank.stores bank) (held B.Bank.stores m)) (λ b. b ≡ bank) }
    {
        let engine = Engine::new(heap, bank)?;
        Ok(Middleware { engine })
    }

    /// Opens the bank for calls.
    pub fn open(&mut self) -> Result<(), BoardFault>
        ensures law { Opens (held B.Bank.stores self.old) (result_listed quiet result) (held B.Bank.stores self.new) }
        ensures stays { Unmoved (held B.Bank.stores self.old) (result_listed quiet result) (held B.Bank.stores self.new) }
        ensures names { Names Open result }
    {
        asked_to(Asked::Open, self.engine.open())
    }

    /// Lets the board go, and hands the bank back.
    pub fn into_bank(self) -> B
        ensures answer { B.Bank.stores result ≡ (held B.Bank.stores self).stores }
    {
        let Middleware { engine } = self;
        engine.into_bank()
    }
}
