// The laws of playing and sharing, for all who build on tickets: each is owed here once.
ghost use Rattle.tickets.specs.Laws.{PlayingLaws, SharingLaws, TopsFit};

/// What playing does at each object; the later write stays; write sets that share nothing may change places.
pub fn playing_laws_stand()
    ensures law { PlayingLaws }
{}

/// Sharing is an object that stands in both.
pub fn sharing_laws_stand()
    ensures law { SharingLaws }
{}

/// Every top fits in 32 bits: computed once over the whole table.
pub fn tops_fit()
    ensures law { TopsFit }
{}
