// Contents compared field by field: the comparisons of the kinds count some of them alike.
use kinds::card::Card;
use kinds::item::Item;
use kinds::volume::VolumePage;
use kinds::whole::Whole;
use model::entry::Entry;
use model::image::ImageRow;
use model::row::Row;
use model::tables::at;
use model::verdict::{Outcome, Verdict};
use registrar::journal::Head;
use registrar::queue::Submission;

pub trait Content: Copy {
    // Whether two contents agree in every field.
    fn is(self, other: Self) -> bool;
}

// Whether two tables have the same places with the same contents.
pub fn same_table<T: Content>(a: &[T], b: &[T]) -> bool {
    for (place, content) in a.iter().enumerate() {
        if !at(b, place).is(Some(*content)) {
            return false;
        }
    }
    a.len() == b.len()
}

impl Content for Whole {
    fn is(self, other: Whole) -> bool {
        self.place == other.place
    }
}

impl Content for VolumePage {
    fn is(self, other: VolumePage) -> bool {
        self.volume == other.volume && self.page == other.page
    }
}

impl Content for Card {
    fn is(self, other: Card) -> bool {
        self == other
    }
}

impl Content for Item {
    fn is(self, other: Item) -> bool {
        match (self, other) {
            (Item::Withdrawn, Item::Withdrawn) => true,
            (Item::Solid { shape: a }, Item::Solid { shape: b }) => a == b,
            (Item::SubAssembly { part: a, count: m }, Item::SubAssembly { part: b, count: n }) => {
                a == b && m == n
            }
            _ => false,
        }
    }
}

impl<T: Content> Content for Option<T> {
    fn is(self, other: Option<T>) -> bool {
        match (self, other) {
            (None, None) => true,
            (Some(a), Some(b)) => a.is(b),
            _ => false,
        }
    }
}

impl<S: Content, R: Content> Content for Row<S, R> {
    fn is(self, other: Row<S, R>) -> bool {
        self.value.is(other.value)
            && self.read.is(other.read)
            && self.count == other.count
            && self.one.is(other.one)
            && self.two.is(other.two)
            && self.three.is(other.three)
            && self.four.is(other.four)
    }
}

impl<S: Content, R: Content> Content for Entry<S, R> {
    fn is(self, other: Entry<S, R>) -> bool {
        self.number == other.number
            && self.noted.is(other.noted)
            && self.saw.is(other.saw)
            && self.wrote.is(other.wrote)
            && self.seen == other.seen
            && self.put == other.put
            && self.opened == other.opened
    }
}

impl<S: Content, R: Content> Content for ImageRow<S, R> {
    fn is(self, other: ImageRow<S, R>) -> bool {
        self.value.is(other.value)
            && self.write.is(other.write)
            && self.read.is(other.read)
            && self.first.is(other.first)
    }
}

impl<S: Content> Content for Verdict<S> {
    fn is(self, other: Verdict<S>) -> bool {
        match (self, other) {
            (Verdict::Accepted { stamp: a }, Verdict::Accepted { stamp: b }) => a.is(b),
            (Verdict::Overtaken, Verdict::Overtaken) => true,
            (Verdict::Gone, Verdict::Gone) => true,
            (Verdict::NoPlace, Verdict::NoPlace) => true,
            _ => false,
        }
    }
}

impl<S: Content> Content for Outcome<S> {
    fn is(self, other: Outcome<S>) -> bool {
        self.ticket == other.ticket && self.verdict.is(other.verdict)
    }
}

impl<S: Content> Content for Submission<S> {
    fn is(self, other: Submission<S>) -> bool {
        self.ticket == other.ticket
            && self.lower.is(other.lower)
            && self.upper.is(other.upper)
            && self.count == other.count
    }
}

impl<S: Content> Content for Head<S> {
    fn is(self, other: Head<S>) -> bool {
        self.stamp.is(other.stamp)
            && self.ticket == other.ticket
            && self.place == other.place
            && self.count == other.count
    }
}
