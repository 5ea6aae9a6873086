// By replica, whether a write set is applied there. A bank has at most eight.
ghost use Rattle.std.specs.Prelude.{◌≡◌, length};

mod methods;

pub const REPLICAS: usize = 8;

#[derive(Clone, Copy)]
pub struct Applied {
    at: [bool; 8],
    ghost eight: { length at ≡ 8 },
}
