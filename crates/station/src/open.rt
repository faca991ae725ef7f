// Opening a job.
ghost use Rattle.std.specs.Prelude.{◌≡◌};
ghost use Rattle.station.specs.Station.{open_job};
ghost use Rattle.station.specs.Heard.{heard};

use crate::job::{Job, Standing};
use crate::sheet::sized;
use kinds::stamp::Stamp;
use model::image::Image;
use model::refusal::Refusal;

impl<S: Stamp> Job<S> {
    // Starts a job at an image: its lower bound is the least stamp, it has no upper bound and no entries.
    pub fn open<R: Copy>(image: Image<'_, S, R>) -> Result<Job<S>, Refusal>
        ensures { result ≡ open_job S.Stamp.kind (heard image.entry) }
    {
        if !sized(image) {
            return Err(Refusal::WrongTables);
        }
        if image.number == 0 {
            return Err(Refusal::OtherImage);
        }
        Ok(Job {
            image: image.number,
            lower: S::least(),
            upper: None,
            standing: Standing::Live,
            count: 0,
        })
    }
}
