// Open: the copies are looked over, and replica 0's board becomes the starting board.
ghost use Rattle.std.specs.Prelude.{◌≡◌, ℕ, ◌+◌, ◌<◌, ◌≤◌};
ghost use Rattle.banks.specs.Model.{store_at, told_count};
ghost use Rattle.machine.specs.Opening.{copy_fits, copies_fit, may_open, opening};
ghost use Rattle.engine.specs.Seen.{seen};

use crate::engine::Engine;
use banks::Bank;
use errands::copies::{is_used, lowest_above_top, lowest_unlike, starting_board};
use ledger::applied::REPLICAS;
use machine::Reason;

// A copy that was never used, keeps the tops and is like the starting board: 11, 12, 13.
#[tactic(auto, unfolding(machine::specs::Opening::copy_fits))]
fn copy_fits<B: Bank>(bank: &B, replica: u8, start: &[u32; 128]) -> Result<(), Reason>
    ensures answer { result ≡ copy_fits start.now replica (store_at (B.Bank.stores bank.now) replica) }
{
    if is_used(bank, replica) {
        return Err(Reason::ReplicaUsed(replica));
    }
    if let Some(object) = lowest_above_top(bank, replica) {
        return Err(Reason::ReplicaAboveTop(replica, object));
    }
    if let Some(object) = lowest_unlike(bank, replica, start) {
        return Err(Reason::ReplicaUnlike(replica, object));
    }
    Ok(())
}

// Copy by copy, from replica 0 on.
fn copies_fit<B: Bank>(bank: &B, start: &[u32; 128]) -> Result<(), Reason>
    requires { told_count (B.Bank.stores bank.now) ≤ 8 }
    ensures answer { result ≡ copies_fit start.now 0 (B.Bank.stores bank.now) }
{
    for replica in 0..bank.count() as u8 {
        copy_fits(bank, replica, start)?;
    }
    Ok(())
}

// The starting board of a bank that may be opened: 10 to 13.
fn may_open<B: Bank>(bank: &B) -> Result<[u32; 128], Reason>
    ensures answer { result ≡ may_open (B.Bank.stores bank.now) }
{
    if bank.count() > REPLICAS {
        return Err(Reason::TooManyReplicas);
    }
    let start = starting_board(bank);
    copies_fit(bank, &start)?;
    Ok(start)
}

impl<B: Bank> Engine<B> {
    /// Opens the bank for calls.
    #[tactic(auto, unfolding(crate::specs::Seen::is_started, crate::specs::Seen::start_read))]
    pub fn open(&mut self) -> Result<(), Reason>
        ensures answer { result ≡ (opening (seen B.Bank.stores self.old)).answer }
        ensures after { seen B.Bank.stores self.new ≡ (opening (seen B.Bank.stores self.old)).after }
    {
        if self.start.is_some() {
            return Err(Reason::AlreadyOpened);
        }
        self.start = Some(may_open(&self.bank)?);
        Ok(())
    }
}
