// The commands on kinds.
use kinds::card::Card;
use kinds::item::Item;
use kinds::volume::VolumePage;
use kinds::whole::Whole;

// The bounds between which a stamp is picked; the upper one may be absent.
#[derive(Clone, Copy)]
pub struct Between<S> {
    pub lower: S,
    pub upper: Option<S>,
}

// The bounds of a pick, by stamp kind.
#[derive(Clone, Copy)]
pub enum Bounds {
    Wholes(Between<Whole>),
    Pages(Between<VolumePage>),
}

// A stamp or value that is to be written, by kind.
#[derive(Clone, Copy)]
pub enum Value {
    OfWhole(Whole),
    OfPage(VolumePage),
    OfCard(Card),
    OfItem(Item),
}

// The bytes that are to be read, by kind.
#[derive(Clone, Copy)]
pub enum Written {
    AsWhole([u8; 8]),
    AsPage([u8; 8]),
    AsCard([u8; 12]),
    AsItem([u8; 12]),
}

// One call.
#[derive(Clone, Copy)]
pub enum Command {
    Pick(Bounds),
    Form(Value),
    Read(Written),
}
