// Published images, as the registrar's office keeps them.
ghost use Rattle.std.specs.Prelude.{◌≡◌, length, map, replicate, IfOk};
ghost use Rattle.station.specs.Heard.{heard};
ghost use Rattle.office.specs.Images.{image_kept, opening_row};
ghost use Rattle.office.specs.Store.{free_outcome};

use crate::store::{no_outcome, places};
use kinds::stamp::Stamp;
use model::image::{Image, ImageRow};
use model::verdict::Outcome;
use registrar::publish::ImageHead;
use std::alloc::{AllocError, Global};

// One image with its own tables.
#[derive(Drop)]
pub struct Published<S: Copy, R: Copy> {
    pub head: ImageHead,
    pub rows: Vec<ImageRow<S, R>>,
    pub outcomes: Vec<Outcome<S>>,
}

// What the image that was never published shows of the opening values.
fn opening_rows<S: Stamp, R: Copy>(
    heap: Global,
    values: &[R],
) -> Result<Vec<ImageRow<S, R>>, AllocError>
    ensures { IfOk result (λ rows. rows.items ≡ map (opening_row S.Stamp.kind.order) values.now) }
{
    let least = S::least();
    values
        .iter()
        .map(|value| ImageRow {
            value: *value,
            write: least,
            read: least,
            first: None,
        })
        .collect(heap)
}

impl<S: Stamp, R: Copy> Published<S, R> {
    // The image that carries number 0 and the opening rows. It was never published.
    pub fn opening(heap: Global, values: &[R]) -> Result<Published<S, R>, AllocError>
        ensures head { IfOk result (λ p. p.head ≡ record { records = length values.now; number = 0; count = 0 }) }
        ensures rows { IfOk result (λ p. p.rows.items ≡ map (opening_row S.Stamp.kind.order) values.now) }
        ensures outcomes { IfOk result (λ p. p.outcomes.items ≡ replicate 32 free_outcome) }
    {
        Ok(Published {
            head: ImageHead {
                records: values.len(),
                number: 0,
                count: 0,
            },
            rows: opening_rows(heap, values)?,
            outcomes: places(heap, no_outcome(), 32)?,
        })
    }

    // The image as a station hears it.
    pub fn image(&self) -> Image<'_, S, R>
        ensures { heard result ≡ image_kept self.now }
    {
        Image {
            records: self.head.records,
            number: self.head.number,
            rows: &self.rows,
            outcomes: &self.outcomes,
            count: self.head.count,
        }
    }
}
