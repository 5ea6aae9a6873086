// A board: the values of 128 objects. Object j is field j mod 8 of ticket j div 8.
ghost use Rattle.std.specs.Prelude.{◌≡◌, length};

mod methods;

pub const OBJECTS: usize = 128;

#[derive(Clone, Copy)]
pub struct Board {
    pub(crate) values: [u32; 128],
    ghost whole: { length values ≡ 128 },
}
