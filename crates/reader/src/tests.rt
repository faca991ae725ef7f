// An archive of two cards and one job, as a converter reads it.

use crate::reader::Reader;
use archive::fault::Fault;
use archive::play::play;
use kinds::card::{Card, Unit};
use kinds::volume::VolumePage;
use kinds::whole::Whole;
use std::test::Fail;

// Heading; two pairs; the values of records 0 and 1; a block: stamp 65,536, ticket 7, a look at record 0
// under the least stamp, and a put of record 1.
const BYTES: [u8; 104] = [
    0x41, 0x53, 0x4a, 0x31, 1, 1, 0, 2, 0, 0, 0, 1, //
    0, 0, 0, 28, 0, 0, 0, 24, 0, 0, 0, 52, 0, 0, 0, 52, //
    0, 0, 0, 1, 0, 0, 0, 0, 0, 0, 0, 250, //
    0, 0, 0, 2, 1, 0, 0, 0, 0, 0, 1, 0, //
    0, 0, 0, 0, 0, 1, 0, 0, 0, 0, 0, 7, 1, 1, 0, 0, //
    0, 0, 0, 0, 0, 0, 0, 0, 0, 0, 0, 0, 0, 1, 0, 0, 0, 0, 0, 0, 0, 250, //
    0, 1, 0, 0, 0, 3, 3, 0, 0, 0, 0, 0, 0, 9,
];

const BLANK: Card = Card {
    revision: 0,
    unit: Unit::Inch,
    mass: 0,
};

const FRAME: Card = Card {
    revision: 1,
    unit: Unit::Millimetre,
    mass: 250,
};

const BRACKET: Card = Card {
    revision: 2,
    unit: Unit::Centimetre,
    mass: 256,
};

const LATER: Card = Card {
    revision: 3,
    unit: Unit::Inch,
    mass: 9,
};

#[test]
fn opening_values(rt: HostRuntime) -> Result<(), Fail> {
    let reader = Reader::<Whole, Card>::open(&BYTES)?;
    assert_eq!(rt; (reader.records(), reader.jobs()), (2, 1));
    let mut space = [BLANK; 2];
    reader.opening(&mut space)?;
    assert_eq!(rt; space, [FRAME, BRACKET]);
    let mut short = [BLANK];
    assert_eq!(rt; reader.opening(&mut short), Err(Fault::SpaceWrong));
    assert_eq!(rt; short, [BLANK]);
    Ok(())
}

#[test]
fn a_job(rt: HostRuntime) -> Result<(), Fail> {
    let reader = Reader::<Whole, Card>::open(&BYTES)?;
    let job = reader.job(0)?;
    assert_eq!(rt; (job.stamp().place, job.ticket()), (65536, 7));
    let mut looks = job.looks();
    let look = looks
        .next()
        .map(|look| (look.number, look.stamp.place, look.value));
    assert_eq!(rt; look, Some((0, 0, FRAME)));
    assert!(rt; looks.next().is_none());
    let mut puts = job.puts();
    assert_eq!(rt;
        puts.next().map(|put| (put.number, put.value)),
        Some((1, LATER))
    );
    assert!(rt; puts.next().is_none());
    assert_eq!(rt; reader.job(1).err(), Some(Fault::SpaceWrong));
    Ok(())
}

#[test]
fn rebuilt_at_each_place(rt: HostRuntime) -> Result<(), Fail> {
    let reader = Reader::<Whole, Card>::open(&BYTES)?;
    for (m, values) in [(0, [FRAME, BRACKET]), (1, [FRAME, LATER])] {
        let mut space = [BLANK; 2];
        reader.rebuild(m, &mut space)?;
        assert_eq!(rt; space, values);
        let mut played = [BLANK; 2];
        play::<Whole, Card>(&BYTES, m, &mut played)?;
        assert_eq!(rt; played, values);
    }
    let mut space = [BLANK; 2];
    assert_eq!(rt; reader.rebuild(2, &mut space), Err(Fault::SpaceWrong));
    Ok(())
}

#[test]
fn a_fault_keeps_its_place(rt: HostRuntime) {
    let mut bytes = BYTES;
    // The unit of the value that is put.
    bytes[96] = 4;
    let fault = Reader::<Whole, Card>::open(&bytes).err();
    assert_eq!(rt; fault, Some(Fault::ValueWrong { place: 92 }));
    assert_eq!(rt;
        Reader::<VolumePage, Card>::open(&BYTES).err(),
        Some(Fault::HeadingWrong)
    );
}

// The values that stood just before the job of a ticket, and the stamp of that job.
fn as_seen(bytes: &[u8], ticket: u32, values: &mut [Card]) -> Result<Option<Whole>, Fault> {
    let reader = Reader::<Whole, Card>::open(bytes)?;
    for k in 0..reader.jobs() {
        let job = reader.job(k)?;
        if job.ticket() == ticket {
            reader.rebuild(k, values)?;
            return Ok(Some(job.stamp()));
        }
    }
    Ok(None)
}

#[test]
fn as_a_converter_saw_it(rt: HostRuntime) -> Result<(), Fail> {
    let mut values = [BLANK; 2];
    let stamp = as_seen(&BYTES, 7, &mut values)?;
    assert_eq!(rt; stamp.map(|stamp| stamp.place), Some(65536));
    assert_eq!(rt; values, [FRAME, BRACKET]);
    assert!(rt; as_seen(&BYTES, 8, &mut values)?.is_none());
    Ok(())
}
