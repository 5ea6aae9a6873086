// Why a store refuses a call, and the number that stands for it.
ghost use Rattle.std.specs.Prelude.{◌≡◌};
ghost use Rattle.stores.specs.Faults.{number_of};

#[derive(Clone, Copy, PartialEq, Eq, Debug)]
pub enum StoreFault {
    NoObject,
    NoPlace,
    NinthObject,
    Overtaken,
    Full,
    PlaceOpen,
    PlaceClosed,
}

impl StoreFault {
    /// The number by which it is told where only numbers pass. None names a value.
    pub fn number(self) -> u32
        ensures answer { result ≡ number_of self }
    {
        match self {
            StoreFault::NoObject => 3,
            StoreFault::NoPlace => 6,
            StoreFault::NinthObject => 30,
            StoreFault::Overtaken => 34,
            StoreFault::Full => 35,
            StoreFault::PlaceOpen => 36,
            StoreFault::PlaceClosed => 37,
        }
    }
}
