// The marked objects of a set, handed out one by one from the lowest.
ghost use Rattle.std.specs.Prelude.{◌≡◌};
ghost use Rattle.std.specs.Iterator.{YieldsFirst, item_count};
ghost use Rattle.marks.specs.Objects.{objects_left, marked_from};

use crate::marks::Marks;

#[derive(Clone, Copy)]
pub struct Objects<'a> {
    marks: &'a Marks,
    // where the next mark is looked for
    from: usize,
}

impl<'a> Objects<'a> {
    /// All the marked objects of a set.
    pub(crate) fn new(marks: &'a Marks) -> Objects<'a>
        ensures answer { objects_left result ≡ marked_from marks.now 0 }
    {
        Objects { marks, from: 0 }
    }
}

// The marked objects in turn; none past the last.
impl<'a> Iterator for Objects<'a> {
    type Item = usize;

    ghost next_gives = { YieldsFirst objects_left };

    ghost remaining = { item_count objects_left };

    fn next(&mut self) -> Option<usize> {
        let object = self.marks.lowest_from(self.from)?;
        self.from = object + 1;
        Some(object)
    }
}
