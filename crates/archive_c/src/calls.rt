// The functions. A slice of bytes is passed as a pointer and a length.
ghost use Rattle.std.specs.Prelude.{◌≡◌, length};
ghost use Rattle.inspection.specs.Kinds.{inspected_by_kinds};
ghost use Rattle.archive_view.specs.Told.{sizes_named, job_named, look_named, put_named};
ghost use Rattle.archive_view.specs.Played.{forms_named, left_behind};
ghost use Rattle.archive_c.specs.Answers.{inspected_as, sizes_as, played_as, job_as, look_as, put_as};

use crate::answers::{Answer, DONE, Inspected, Job, Look, Put, Sizes, refused};
use archive_view::forms::play_forms;
use archive_view::jobs::{read_job, read_look, read_put};
use archive_view::sizes::read_sizes;
use inspection::by_kinds::inspect_by_kinds;

// Inspects an archive whole, its play too: the number of its jobs, or its first fault.
#[unsafe(no_mangle)]
pub extern "C" fn bozhirka_inspect(bytes: &[u8]) -> Inspected
    ensures { result ≡ inspected_as (inspected_by_kinds bytes.now) }
{
    match inspect_by_kinds(bytes) {
        Ok(jobs) => Inspected { answer: DONE, jobs },
        Err(fault) => Inspected {
            answer: refused(fault),
            jobs: 0,
        },
    }
}

// The two kinds, the number of records and that of jobs of an archive that is right but for its play.
#[unsafe(no_mangle)]
pub extern "C" fn bozhirka_read_sizes(bytes: &[u8]) -> Sizes
    ensures { result ≡ sizes_as (sizes_named bytes.now) }
{
    match read_sizes(bytes) {
        Ok(sizes) => Sizes {
            answer: DONE,
            stamp_kind: sizes.stamp_kind,
            record_kind: sizes.record_kind,
            records: sizes.records,
            jobs: sizes.jobs,
        },
        Err(fault) => Sizes {
            answer: refused(fault),
            stamp_kind: 0,
            record_kind: 0,
            records: 0,
            jobs: 0,
        },
    }
}

// Leaves in a space the written forms of the values that stand after the first jobs, so many of them.
#[unsafe(no_mangle)]
pub extern "C" fn bozhirka_play(bytes: &[u8], jobs: usize, space: &mut [u8]) -> Answer
    ensures answer { result ≡ played_as (forms_named bytes.now (length space.old) jobs) }
    ensures leaves { space.new ≡ left_behind (forms_named bytes.now (length space.old) jobs) space.old }
{
    match play_forms(bytes, jobs, space) {
        Ok(()) => DONE,
        Err(fault) => refused(fault),
    }
}

// A job, counted from 0 in final order.
#[unsafe(no_mangle)]
pub extern "C" fn bozhirka_read_job(bytes: &[u8], k: usize) -> Job
    ensures { result ≡ job_as (job_named bytes.now k) }
{
    match read_job(bytes, k) {
        Ok(job) => {
            let stamp = job.stamp;
            Job {
                answer: DONE,
                stamp,
                ticket: job.ticket,
                looks: job.looks,
                puts: job.puts,
            }
        }
        Err(fault) => Job {
            answer: refused(fault),
            stamp: [0; 8],
            ticket: 0,
            looks: 0,
            puts: 0,
        },
    }
}

// A noted look of a job, counted from 0 in the order in which they were made.
#[unsafe(no_mangle)]
pub extern "C" fn bozhirka_read_look(bytes: &[u8], k: usize, i: usize) -> Look
    ensures { result ≡ look_as (look_named bytes.now k i) }
{
    match read_look(bytes, k, i) {
        Ok(look) => {
            let stamp = look.stamp;
            let value = look.value;
            Look {
                answer: DONE,
                number: look.number,
                stamp,
                value,
            }
        }
        Err(fault) => Look {
            answer: refused(fault),
            number: 0,
            stamp: [0; 8],
            value: [0; 12],
        },
    }
}

// A put of a job, counted alike.
#[unsafe(no_mangle)]
pub extern "C" fn bozhirka_read_put(bytes: &[u8], k: usize, i: usize) -> Put
    ensures { result ≡ put_as (put_named bytes.now k i) }
{
    match read_put(bytes, k, i) {
        Ok(put) => {
            let value = put.value;
            Put {
                answer: DONE,
                number: put.number,
                value,
            }
        }
        Err(fault) => Put {
            answer: refused(fault),
            number: 0,
            value: [0; 12],
        },
    }
}
