// A transaction that a station's program holds, beside the board. It is owed an end: its verdict, or giving it up.
ghost use Rattle.std.specs.Prelude.{◌≡◌};
ghost use Rattle.calls.specs.declared.call.Call.TheVariants.{Begin, Read, Write, Commit, GiveUp};
ghost use Rattle.law.specs.History.Answer.{told};
ghost use Rattle.refinement.specs.Answers.{quiet, verdict_listed};
ghost use Rattle.refinement.specs.Refusals.{Stays};
ghost use Rattle.middleware.specs.Listing.{result_listed};
ghost use Rattle.middleware.specs.Meaning.{held};
ghost use Rattle.middleware.specs.Serving.{Serves, Tells, GetsShutPlace, Names};
ghost use Rattle.middleware.specs.declared.fault.Asked.TheVariants.{Queued};
ghost use Rattle.held.specs.Holding.{number_of, begun, verdict_of, HandsBack};

use banks::Bank;
use ledger::Verdict;
use middleware::{BoardFault, Middleware};

pub struct Held {
    number: u32,
}

// Letting a transaction go asks for the number 0, and the first transaction has the number 1. So none that was begun can be let go.
impl Drop for Held {
    fn drop(self)
        requires { number_of self ≡ 0 }
    {
        let Held { number: _ } = self;
    }
}

// A commit that got no verdict: the transaction comes back, with the reason.
pub struct Refused {
    pub back: Held,
    pub fault: BoardFault,
}

impl Held {
    /// Begins a transaction at a replica, and holds it.
    pub fn begin<B: Bank>(board: &mut Middleware<B>, k: u32) -> Result<Held, BoardFault>
        ensures law { Serves (Begin k) (held B.Bank.stores board.old) (result_listed told (begun result)) (held B.Bank.stores board.new) }
        ensures names { Names (Queued (Begin k)) result }
        ensures stays { Stays (held B.Bank.stores board.old) (result_listed told (begun result)) (held B.Bank.stores board.new) }
        ensures place { GetsShutPlace (held B.Bank.stores board.old) k (begun result) (held B.Bank.stores board.new) }
    {
        let number = board.begin(k)?;
        Ok(Held { number })
    }

    /// The number of the transaction.
    pub fn number(&self) -> u32
        ensures answer { result ≡ number_of self.now }
    {
        self.number
    }

    /// The transaction's own write of an object, else its snapshot's value.
    pub fn read<B: Bank>(&self, board: &Middleware<B>, j: u32) -> Result<u32, BoardFault>
        ensures law { Tells (Read (number_of self.now) j) (held B.Bank.stores board.now) (result_listed told result) }
        ensures names { Names (Queued (Read (number_of self.now) j)) result }
    {
        board.read(self.number, j)
    }

    /// Sets an own write of the transaction.
    pub fn write<B: Bank>(
        &self,
        board: &mut Middleware<B>,
        j: u32,
        v: u32,
    ) -> Result<(), BoardFault>
        ensures law { Serves (Write (number_of self.now) j v) (held B.Bank.stores board.old) (result_listed quiet result) (held B.Bank.stores board.new) }
        ensures names { Names (Queued (Write (number_of self.now) j v)) result }
        ensures stays { Stays (held B.Bank.stores board.old) (result_listed quiet result) (held B.Bank.stores board.new) }
    {
        board.write(self.number, j, v)
    }

    /// Asks for the transaction's verdict; where that is refused the transaction comes back.
    pub fn commit<B: Bank>(self, board: &mut Middleware<B>) -> Result<Verdict, Refused>
        ensures law { Serves (Commit (number_of self)) (held B.Bank.stores board.old) (result_listed verdict_listed (verdict_of result)) (held B.Bank.stores board.new) }
        ensures names { Names (Queued (Commit (number_of self))) (verdict_of result) }
        ensures stays { Stays (held B.Bank.stores board.old) (result_listed verdict_listed (verdict_of result)) (held B.Bank.stores board.new) }
        ensures back { HandsBack self result }
    {
        let Held { number } = self;
        board.commit(number).map_err(|fault| Refused {
            back: Held { number },
            fault,
        })
    }

    /// Ends the transaction without a verdict. It is spent, whatever the board answers.
    pub fn give_up<B: Bank>(self, board: &mut Middleware<B>) -> Result<(), BoardFault>
        ensures law { Serves (GiveUp (number_of self)) (held B.Bank.stores board.old) (result_listed quiet result) (held B.Bank.stores board.new) }
        ensures names { Names (Queued (GiveUp (number_of self))) result }
        ensures stays { Stays (held B.Bank.stores board.old) (result_listed quiet result) (held B.Bank.stores board.new) }
    {
        let Held { number } = self;
        board.give_up(number)
    }
}
