// Why a bank refuses a call: there is no such replica, or the store there refuses it.
ghost use Rattle.std.specs.Prelude.{◌≡◌};
ghost use Rattle.banks.specs.declared.fault.BankFault.TheVariants.{At};
ghost use Rattle.banks.specs.Model.{lifted};

use stores::StoreFault;

#[derive(Clone, Copy, PartialEq, Eq, Debug)]
pub enum BankFault {
    NoReplica(u8),
    At(u8, StoreFault),
}

impl From<(u8, StoreFault)> for BankFault {
    ghost from_gives = { λ e r. r ≡ At e.0 e.1 };

    fn from(e: (u8, StoreFault)) -> BankFault {
        BankFault::At(e.0, e.1)
    }
}

// What a store answered, as its bank answers it.
pub(crate) fn at_replica<T>(replica: u8, r: Result<T, StoreFault>) -> Result<T, BankFault>
    ensures answer { result ≡ lifted replica r }
{
    r.map_err(|fault| BankFault::from((replica, fault)))
}
