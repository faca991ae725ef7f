// What a release run is asked for.
ghost use Rattle.std.specs.Prelude.{IfOk, OnOk};
ghost use Rattle.release.specs.Asked.{Within, Lawful};

use thiserror::Error;

// The stamp kinds and the record kinds that a run can take.
#[derive(Clone, Copy)]
pub enum Stamps {
    Whole,
    Page,
}

#[derive(Clone, Copy)]
pub enum Values {
    Card,
    Item,
}

// Stations and schedules, the records of a register, the kinds, and the seed of what is drawn.
#[derive(Clone, Copy)]
pub struct Options {
    pub stations: usize,
    pub schedules: u32,
    pub records: usize,
    pub stamps: Stamps,
    pub values: Values,
    pub seed: u64,
}

// The names of what can be asked for, in the order in which words without a name are taken.
const NAMES: [&str; 6] = [
    "stations",
    "schedules",
    "records",
    "stamps",
    "values",
    "seed",
];

// Why the words are not understood.
#[derive(Clone, Copy, Debug, Error)]
pub enum Misread {
    #[error("expected stations=, schedules=, records=, stamps=, values= or seed=, or words in this order")]
    Name,
    #[error("expected a number of stations from 1 to 1000")]
    Stations,
    #[error("expected a number of schedules")]
    Schedules,
    #[error("expected a number of records from 1 to 1024")]
    Records,
    #[error("expected the stamp kind whole or page")]
    Stamps,
    #[error("expected the record kind card or item")]
    Values,
    #[error("expected a number as the seed")]
    Seed,
}

impl Default for Options {
    fn default() -> Options
        ensures { Lawful result }
    {
        Options {
            stations: 20,
            schedules: 2000,
            records: 24,
            stamps: Stamps::Whole,
            values: Values::Card,
            seed: 1,
        }
    }
}

// A number from 1 to a largest.
fn number(text: &str, most: usize) -> Option<usize>
    ensures { Within most result }
{
    let number: usize = text.parse().ok()?;
    (1..=most).contains(&number).then_some(number)
}

impl Options {
    // Takes a word for what has this name.
    fn set(&mut self, name: &str, text: &str) -> Result<(), Misread>
        ensures { Lawful self.old → OnOk result (Lawful self.new) }
    {
        match name.as_bytes() {
            b"stations" => self.stations = number(text, 1000).ok_or(Misread::Stations)?,
            b"schedules" => self.schedules = text.parse().map_err(|_| Misread::Schedules)?,
            b"records" => self.records = number(text, 1024).ok_or(Misread::Records)?,
            b"stamps" => {
                self.stamps = match text.as_bytes() {
                    b"whole" => Stamps::Whole,
                    b"page" => Stamps::Page,
                    _ => return Err(Misread::Stamps),
                }
            }
            b"values" => {
                self.values = match text.as_bytes() {
                    b"card" => Values::Card,
                    b"item" => Values::Item,
                    _ => return Err(Misread::Values),
                }
            }
            b"seed" => self.seed = text.parse().map_err(|_| Misread::Seed)?,
            _ => return Err(Misread::Name),
        }
        Ok(())
    }

    // Reads words, as `stations=40`, or in the order of the names. What no word names is as it is by default. Stations
    // and records are as many as a run can have.
    pub fn read(words: &[String]) -> Result<Options, Misread>
        ensures { IfOk result Lawful }
    {
        let mut options = Options::default();
        let mut names = NAMES.iter();
        for word in words {
            match word.split_once('=') {
                Some((name, text)) => options.set(name, text)?,
                None => {
                    let name = names.next().ok_or(Misread::Name)?;
                    options.set(name, word)?;
                }
            }
        }
        Ok(options)
    }

    // The places of a register's journal, few enough to fill up now and then.
    pub(crate) fn journal(&self) -> usize {
        self.stations.saturating_mul(3).clamp(1, 4096)
    }
}
