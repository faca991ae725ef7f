// A register with its stations, as a release run drives it.
ghost use Rattle.std.specs.Prelude.{◌≡◌, length, IfOk};

use crate::chance::Chance;
use crate::failure::Failure;
use crate::options::Options;
use crate::tally::Tally;
use crate::values::Drawn;
use kinds::stamp::Stamp;
use model::entry::Entry;
use office::images::Published;
use office::store::{Store, blank, places};
use registrar::registrar::Registrar;
use station::job::Job;
use std::alloc::Global;

// A station: the job that it works at, if any, and its sheet.
#[derive(Drop)]
pub(crate) struct Station<S: Copy, R: Copy> {
    pub job: Option<Job<S>>,
    pub sheet: Vec<Entry<S, R>>,
}

// The register of the schedule that runs, the images by number, the stations, and what serves one schedule after the
// other: the opening values, a space of values for the play, and one of bytes for the archive. Images of a number that
// the register has not reached are of an earlier schedule.
#[derive(Drop)]
pub struct Field<S: Copy, R: Copy> {
    pub tally: Tally,
    pub(crate) heap: Global,
    pub(crate) chance: Chance,
    pub(crate) registrar: Registrar,
    pub(crate) store: Store<S, R>,
    pub(crate) images: Vec<Published<S, R>>,
    pub(crate) stations: Vec<Station<S, R>>,
    pub(crate) opening: Vec<R>,
    pub(crate) played: Vec<R>,
    pub(crate) space: Vec<u8>,
}

impl<S: Stamp, R: Drawn> Field<S, R> {
    // Tables and stations for the schedules of a run: as many opening values, and as many places for the play, as the
    // register has records.
    pub fn new(heap: Global, options: &Options) -> Result<Field<S, R>, Failure>
        ensures opening { IfOk result (λ f. length f.opening.items ≡ options.now.records) }
        ensures played { IfOk result (λ f. length f.played.items ≡ options.now.records) }
    {
        let mut chance = Chance {
            state: options.seed,
        };
        let value = R::drawn(&mut chance);
        let opening = places(heap, value, options.records)?;
        let mut store = Store::new(heap, value, options.records, options.journal())?;
        let registrar = Registrar::found(&opening, store.lend())?;
        let mut images = Vec::new(heap);
        images.push(Published::opening(heap, &opening)?)?;
        let mut stations = Vec::new(heap);
        for _ in 0..options.stations {
            let sheet = places(heap, blank(value), 16)?;
            stations.push(Station { job: None, sheet })?;
        }
        Ok(Field {
            tally: Tally::default(),
            heap,
            chance,
            registrar,
            store,
            images,
            stations,
            opening,
            played: places(heap, value, options.records)?,
            space: Vec::new(heap),
        })
    }

    // Founds the register of the next schedule, of values by chance. The stations have no job.
    pub(crate) fn found(&mut self) -> Result<(), Failure> {
        for value in self.opening.iter_mut() {
            *value = R::drawn(&mut self.chance);
        }
        self.registrar = Registrar::found(&self.opening, self.store.lend())?;
        for station in self.stations.iter_mut() {
            station.job = None;
        }
        Ok(())
    }

    // The number of the image that was published last.
    pub(crate) fn newest(&self) -> usize {
        self.registrar.cycle as usize
    }

    // The number of an image, from 0, which was never published, to the newest.
    pub(crate) fn any_image(&mut self) -> usize {
        let images = self.newest().saturating_add(1);
        self.chance.below(images)
    }

    // The number of a record, mostly one of the first three; now and then of none.
    pub(crate) fn any_record(&mut self) -> usize {
        let records = self.registrar.records;
        if self.chance.one_in(150) {
            records
        } else if self.chance.one_in(4) {
            self.chance.below(records)
        } else {
            self.chance.below(records.min(3))
        }
    }
}
