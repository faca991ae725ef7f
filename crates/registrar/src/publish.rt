// Publishing an image.
ghost use Rattle.std.specs.Prelude.{◌≡◌, length};
ghost use Rattle.model.specs.Rows.{shown_row};
ghost use Rattle.registrar.specs.Registry.{shown_rows, publish as published_by};
ghost use Rattle.registrar.specs.Calls.{registry_left, registry_in, image_with, published_as};

use crate::bundle::Tables;
use crate::places::lay;
use crate::registrar::Registrar;
use crate::rows::latest;
use kinds::stamp::Stamp;
use model::image::{ImageRow, fits};
use model::refusal::Refusal;
use model::row::Row;
use model::tables::front;
use model::verdict::Outcome;

// An image's own numbers: of its records, its own, and of its outcomes, which lie in a table that the
// caller brings.
#[derive(Clone, Copy, Debug, PartialEq, Eq)]
pub struct ImageHead {
    pub records: usize,
    pub number: u32,
    pub count: usize,
}

// What an image shows of a row with its first write.
fn show<S: Copy, R: Copy>(row: &Row<S, R>, first: Option<S>) -> ImageRow<S, R>
    ensures { result ≡ shown_row row.now first }
{
    ImageRow {
        value: row.value,
        write: latest(row),
        read: row.read,
        first,
    }
}

// The image's rows: each row of the register with its first write. One side goes by index: after a `zip` over
// `iter_mut` a proof knows nothing of what was written (tried).
fn show_all<S: Copy, R: Copy>(
    image: &mut [ImageRow<S, R>],
    rows: &[Row<S, R>],
    firsts: &[Option<S>],
)
    requires rows { length image.old ≡ length rows.now }
    requires firsts { length firsts.now ≡ length rows.now }
    ensures { image.new ≡ shown_rows rows.now firsts.now }
{
    for (i, shown) in image.iter_mut().enumerate() {
        *shown = show(&rows[i], firsts[i]);
    }
}

impl Registrar {
    // The next image: every row, and the outcomes since the image before. First writes and outcomes are
    // cleared. The answer is the image's number.
    pub fn publish<S: Stamp, R: Copy>(
        &mut self,
        tables: Tables<'_, S, R>,
        head: &mut ImageHead,
        rows: &mut [ImageRow<S, R>],
        outcomes: &mut [Outcome<S>],
    ) -> Result<u32, Refusal>
        ensures { published_as result (registry_left self.new tables.exit) (image_with head.new rows.new outcomes.new) ≡ published_by (registry_in self.old tables.entry) (image_with head.old rows.old outcomes.old) }
    {
        if !tables.fit(self.records) {
            return Err(Refusal::WrongTables);
        }
        if !fits(self.records, rows.len(), outcomes.len()) {
            return Err(Refusal::WrongTables);
        }
        if self.cycle == u32::MAX {
            return Err(Refusal::CountEnded);
        }
        let Tables {
            rows: register,
            firsts,
            outcomes: decided,
            ..
        } = tables;
        show_all(rows, register, firsts);
        firsts.fill(None);
        let news = front(decided, self.outcomes);
        lay(outcomes, 0, news);
        self.cycle += 1;
        self.outcomes = 0;
        *head = ImageHead {
            records: self.records,
            number: self.cycle,
            count: news.len(),
        };
        Ok(self.cycle)
    }
}
