// The calls that allocate succeed.
use crate::images::Published;
use crate::store::{Store, places};
use kinds::card::{Card, Unit};
use kinds::whole::Whole;
use std::test::Fail;

// A register of two records, with a journal of eight places, has its tables and its first image.
#[test]
fn a_small_office(rt: HostRuntime) -> Result<(), Fail> {
    let card = Card {
        revision: 1,
        unit: Unit::Millimetre,
        mass: 4000,
    };
    let store: Store<Whole, Card> = Store::new(rt.alloc(), card, 2, 8)?;
    assert_eq!(rt; store.rows.len(), 2);
    assert_eq!(rt; store.heads.len(), 8);
    assert_eq!(rt; store.lines.len(), 128);
    let published: Published<Whole, Card> = Published::opening(rt.alloc(), &[card, card])?;
    assert_eq!(rt; published.image().rows.len(), 2);
    assert_eq!(rt; published.image().outcomes.len(), 32);
    assert_eq!(rt; places(rt.alloc(), card, 3)?.len(), 3);
    Ok(())
}
