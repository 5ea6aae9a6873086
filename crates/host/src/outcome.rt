// How a run came out, in numbers for a host.
ghost use Rattle.std.specs.Prelude.{◌≡◌};
ghost use Rattle.host.specs.Entry.{outcome_of};

use script::Unfit;
use shop_script::ShopFault;

// 0, and the bytes of answers; 7; 9, and the length that the buffer needs; or no memory.
// It stays numbers, and no Result, for it is what C is handed.
#[repr(C)]
#[derive(Clone, Copy)]
pub struct Outcome {
    pub status: u32,
    pub length: usize,
}

// No refusal has this number.
const NO_MEMORY: u32 = 1_000;

impl From<Result<usize, ShopFault>> for Outcome {
    ghost from_gives = { λ r o. o ≡ outcome_of r };

    fn from(r: Result<usize, ShopFault>) -> Outcome {
        let (status, length) = match r {
            Ok(length) => (0, length),
            Err(ShopFault::NoMemory) => (NO_MEMORY, 0),
            Err(ShopFault::Unfit(Unfit::TooLong)) => (7, 0),
            Err(ShopFault::Unfit(Unfit::BufferShort { needed })) => (9, needed),
        };
        Outcome { status, length }
    }
}
