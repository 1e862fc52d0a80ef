// Criteria by their names.
use crate::words::Words;
use calls::one_of::OneOf;
use criteria::ladder::Ladder;
use criteria::ranked::Ranked;
use criteria::single::Single;
use criteria::tally::{Classes, Tally};

// A simple criterion, a ranked of two, and a ranked of two of either.
pub(crate) type Simple = OneOf<Single, OneOf<Ladder, Tally>>;

pub(crate) type Joined = OneOf<Simple, Ranked<Simple, Simple>>;

pub(crate) type Named = OneOf<Joined, Ranked<Joined, Joined>>;

// Their totals.
pub(crate) type SimpleTotal = OneOf<u32, OneOf<[u32; 8], Classes>>;

pub(crate) type JoinedTotal = OneOf<SimpleTotal, (SimpleTotal, SimpleTotal)>;

pub(crate) type NamedTotal = OneOf<JoinedTotal, (JoinedTotal, JoinedTotal)>;

pub(crate) trait FromName: Sized + Drop {
    // The criterion whose name these words begin with.
    fn from_name(words: &mut Words) -> Option<Self>;
}

// A name is read into data, as a call is.
impl FromName for Simple {
    fn from_name(words: &mut Words) -> Option<Simple> {
        match words.word()? {
            "single" => Some(OneOf::First(Single {
                parameter: words.number()?,
            })),
            "ladder" => Some(OneOf::Second(OneOf::First(Ladder))),
            "tally" => Some(OneOf::Second(OneOf::Second(Tally))),
            _ => None,
        }
    }
}

impl<C: FromName> FromName for OneOf<C, Ranked<C, C>> {
    fn from_name(words: &mut Words) -> Option<OneOf<C, Ranked<C, C>>> {
        if words.peek()? != "ranked" {
            return Some(OneOf::First(C::from_name(words)?));
        }
        words.word()?;
        let first = C::from_name(words)?;
        let second = C::from_name(words)?;
        Some(OneOf::Second(Ranked { first, second }))
    }
}
