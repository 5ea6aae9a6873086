// The eight fields of a ticket.
use std::fmt;

#[derive(Clone, Copy)]
pub(crate) struct Ticket {
    pub(crate) stage: u32,
    pub(crate) pages: u32,
    pub(crate) sheets: u32,
    pub(crate) plates: u32,
    pub(crate) fold: u32,
    pub(crate) press: u32,
    pub(crate) paper: u32,
    pub(crate) waste: u32,
}

impl From<[u32; 8]> for Ticket {
    ghost use Rattle.std.specs.Prelude.{◌≡◌};
    ghost use Rattle.listing.specs.Listing.{ticket_of};

    ghost from_gives = { λ fields r. r ≡ ticket_of fields };

    fn from(fields: [u32; 8]) -> Ticket {
        let [stage, pages, sheets, plates, fold, press, paper, waste] = fields;
        Ticket {
            stage,
            pages,
            sheets,
            plates,
            fold,
            press,
            paper,
            waste,
        }
    }
}

impl fmt::Display for Ticket {
    ghost use Rattle.std.specs.Prelude.{Some};
    ghost use Rattle.listing.specs.Listing.{fields_text};

    ghost output = { λ t. Some (fields_text t) };

    fn fmt<W: fmt::Write>(&self, f: &mut fmt::Formatter<W>) -> fmt::Result {
        let Ticket {
            stage,
            pages,
            sheets,
            plates,
            fold,
            press,
            paper,
            waste,
        } = *self;
        write!(
            f,
            "stage {stage} pages {pages} sheets {sheets} plates {plates} fold {fold} press {press} paper {paper} waste {waste}"
        )
    }
}
