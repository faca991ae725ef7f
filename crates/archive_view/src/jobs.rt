// The jobs of an archive, their looks and their puts, by numbers and written forms.
ghost use Rattle.std.specs.Prelude.{◌≡◌};
ghost use Rattle.archive_view.specs.Told.{job_stated, job_told, look_told, put_told, job_named, look_named, put_named};

use crate::named::{Kinds, kinds_named};
use archive::fault::Fault;
use kinds::card::Card;
use kinds::item::Item;
use kinds::stamp::Stamp;
use kinds::value::Record;
use kinds::volume::VolumePage;
use kinds::whole::Whole;
use reader::job::Job;
use reader::reader::Reader;

// A job: the written form of its stamp, its ticket, and how many looks and puts it has.
#[derive(Clone, Copy)]
pub struct JobForm {
    pub stamp: [u8; 8],
    pub ticket: u32,
    pub looks: usize,
    pub puts: usize,
}

// A noted look: the record, and the written forms of the stamp and the value that it showed.
#[derive(Clone, Copy)]
pub struct LookForm {
    pub number: usize,
    pub stamp: [u8; 8],
    pub value: [u8; 12],
}

// A put: the record, and the written form of the value that it got.
#[derive(Clone, Copy)]
pub struct PutForm {
    pub number: usize,
    pub value: [u8; 12],
}

// The job at a place of the final order.
fn job_at<S: Stamp, R: Record>(bytes: &[u8], k: usize) -> Result<Job<'_, S, R>, Fault>
    ensures { result ≡ job_stated S.Stamp.kind.order R.Record.kind bytes.now k }
{
    Reader::<S, R>::open(bytes)?.job(k)
}

// The forms of a job of an archive of given kinds.
fn job_told<S: Stamp, R: Record>(bytes: &[u8], k: usize) -> Result<JobForm, Fault>
    ensures { result ≡ job_told S.Stamp.kind.order R.Record.kind bytes.now k }
{
    let job = job_at::<S, R>(bytes, k)?;
    Ok(JobForm {
        stamp: job.stamp().to_bytes(),
        ticket: job.ticket(),
        looks: job.looks().len(),
        puts: job.puts().len(),
    })
}

// The forms of a look of such an archive.
fn look_told<S: Stamp, R: Record>(bytes: &[u8], k: usize, i: usize) -> Result<LookForm, Fault>
    ensures { result ≡ look_told S.Stamp.kind.order R.Record.kind bytes.now k i }
{
    let look = job_at::<S, R>(bytes, k)?
        .looks()
        .get(i)
        .ok_or(Fault::SpaceWrong)?;
    Ok(LookForm {
        number: look.number,
        stamp: look.stamp.to_bytes(),
        value: look.value.to_bytes(),
    })
}

// The forms of a put of such an archive.
fn put_told<S: Stamp, R: Record>(bytes: &[u8], k: usize, i: usize) -> Result<PutForm, Fault>
    ensures { result ≡ put_told S.Stamp.kind.order R.Record.kind bytes.now k i }
{
    let put = job_at::<S, R>(bytes, k)?
        .puts()
        .get(i)
        .ok_or(Fault::SpaceWrong)?;
    Ok(PutForm {
        number: put.number,
        value: put.value.to_bytes(),
    })
}

// A job, counted from 0 in final order, of an archive that is right but for its play.
pub fn read_job(bytes: &[u8], k: usize) -> Result<JobForm, Fault>
    ensures { result ≡ job_named bytes.now k }
{
    match kinds_named(bytes) {
        Some(Kinds::WholeCards) => job_told::<Whole, Card>(bytes, k),
        Some(Kinds::WholeItems) => job_told::<Whole, Item>(bytes, k),
        Some(Kinds::PageCards) => job_told::<VolumePage, Card>(bytes, k),
        Some(Kinds::PageItems) => job_told::<VolumePage, Item>(bytes, k),
        None => Err(Fault::HeadingWrong),
    }
}

// A look of such a job, counted from 0 in the order in which they were made.
pub fn read_look(bytes: &[u8], k: usize, i: usize) -> Result<LookForm, Fault>
    ensures { result ≡ look_named bytes.now k i }
{
    match kinds_named(bytes) {
        Some(Kinds::WholeCards) => look_told::<Whole, Card>(bytes, k, i),
        Some(Kinds::WholeItems) => look_told::<Whole, Item>(bytes, k, i),
        Some(Kinds::PageCards) => look_told::<VolumePage, Card>(bytes, k, i),
        Some(Kinds::PageItems) => look_told::<VolumePage, Item>(bytes, k, i),
        None => Err(Fault::HeadingWrong),
    }
}

// A put of such a job, counted alike.
pub fn read_put(bytes: &[u8], k: usize, i: usize) -> Result<PutForm, Fault>
    ensures { result ≡ put_named bytes.now k i }
{
    match kinds_named(bytes) {
        Some(Kinds::WholeCards) => put_told::<Whole, Card>(bytes, k, i),
        Some(Kinds::WholeItems) => put_told::<Whole, Item>(bytes, k, i),
        Some(Kinds::PageCards) => put_told::<VolumePage, Card>(bytes, k, i),
        Some(Kinds::PageItems) => put_told::<VolumePage, Item>(bytes, k, i),
        None => Err(Fault::HeadingWrong),
    }
}
