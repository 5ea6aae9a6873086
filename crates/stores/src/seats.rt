// The sixteen seats of a store: what stands at each place that is open. A place past the last seat is told from one that is closed.
ghost use Rattle.std.specs.Prelude.{◌≡◌, length};

use crate::fault::StoreFault;

/// How many seats there are.
pub const SEATS: usize = 16;

#[derive(Drop)]
pub struct Seats<P> {
    seats: [Option<P>; SEATS],
    ghost sixteen: { length seats ≡ 16 },
}

impl<P> Seats<P> {
    ghost use Rattle.std.specs.Prelude.{replicate, None, Ok, Err, slice_set};
    ghost use Rattle.std.specs.Fn.{FnOnceReturnsAtMut};
    ghost use Rattle.stores.specs.Model.{done};
    ghost use Rattle.stores.specs.Seated.{seats_of, held_in, vacant_in, open_in, opened, OpenedWith, Updates, Leaves, ChangesEach};

    /// Every place is closed.
    pub fn closed() -> Seats<P>
    where
        P: Copy,
        ensures answer { seats_of result ≡ replicate 16 None }
    {
        Seats {
            seats: [None; SEATS],
        }
    }

    /// What stands at a place that is open.
    pub fn get(&self, place: usize) -> Result<&P, StoreFault>
        ensures answer { elim result [ Ok here ↦ held_in (seats_of self.now) place ≡ Ok here.now | Err fault ↦ held_in (seats_of self.now) place ≡ Err fault ] }
    {
        let seat = self.seats.get(place).ok_or(StoreFault::NoPlace)?;
        seat.as_ref().ok_or(StoreFault::PlaceClosed)
    }

    /// Whether a place is open.
    pub fn is_open(&self, place: usize) -> Result<bool, StoreFault>
        ensures answer { result ≡ open_in (seats_of self.now) place }
    {
        let seat = self.seats.get(place).ok_or(StoreFault::NoPlace)?;
        Ok(seat.is_some())
    }

    /// Opens a place with what is to stand there.
    pub fn open(&mut self, place: usize, here: P) -> Result<(), StoreFault>
    where
        P: Drop,
        ensures answer { result ≡ vacant_in (seats_of self.old) place }
        ensures after { seats_of self.new ≡ opened (vacant_in (seats_of self.old) place) (seats_of self.old) place here }
    {
        self.open_with(place, || here)
    }

    /// Opens a place with what `make` gives to stand there, written once; where the place is refused, `make` is not asked.
    pub fn open_with<F: FnOnce() -> P>(&mut self, place: usize, make: F) -> Result<(), StoreFault>
    where
        P: Drop,
        requires { F.pre make }
        ensures answer { result ≡ vacant_in (seats_of self.old) place }
        ensures after { OpenedWith (F.post make) (vacant_in (seats_of self.old) place) (seats_of self.old) place (seats_of self.new) }
    {
        if self.is_open(place)? {
            return Err(StoreFault::PlaceOpen);
        }
        self.seats[place] = Some(make());
        Ok(())
    }

    /// Closes a place that is open.
    pub fn close(&mut self, place: usize) -> Result<(), StoreFault>
    where
        P: Drop,
        ensures answer { result ≡ done (held_in (seats_of self.old) place) }
        ensures after { seats_of self.new ≡ slice_set (seats_of self.old) place None }
    {
        self.get(place)?;
        self.seats[place] = None;
        Ok(())
    }

    /// Changes what stands at a place that is open, where it lies, and answers what the change answers.
    pub fn update<R, F: FnOnce(&mut P) -> Result<R, StoreFault>>(
        &mut self,
        place: usize,
        change: F,
    ) -> Result<R, StoreFault>
        requires { F.IsAlwaysCallable change }
        ensures after { Updates (FnOnceReturnsAtMut F.FnOnce change) (seats_of self.old) place result (seats_of self.new) }
    {
        // by its index: behind a `get_mut` the proof knows none of the seats
        if place >= self.seats.len() {
            return Err(StoreFault::NoPlace);
        }
        match &mut self.seats[place] {
            Some(here) => change(here),
            None => Err(StoreFault::PlaceClosed),
        }
    }

    /// Changes what stands at each place that is open, where it lies.
    pub fn for_each<F: Fn(&mut P)>(&mut self, change: F)
        requires { F.IsAlwaysCallable change }
        ensures after { ChangesEach (Leaves F.Fn change) (seats_of self.old) (seats_of self.new) }
    {
        // seat by seat: behind a `flatten` the proof knows none of the seats after the loop
        for seat in self.seats.iter_mut() {
            if let Some(here) = seat {
                change(here);
            }
        }
    }
}
