// A desk: one registrar with its tables, the images it published, and the jobs and tickets by name.
ghost use Rattle.std.specs.Prelude.{◌≡◌, [], ◌∷◌, length, map, IfOk, IfErr};
ghost use Rattle.law.specs.HandOver.{AccountedFor};
ghost use Rattle.office.specs.Images.{image_kept};
ghost use Rattle.office.specs.Store.{registry_kept};
ghost use Rattle.schedule_desk.specs.Founded.{founded_numbers, opening_image, IsNoFounding};

use crate::failure::Failure;
use crate::holdings::Holdings;
use kinds::stamp::Stamp;
use model::entry::Entry;
use office::images::Published;
use office::store::{Store, blank};
use registrar::registrar::Registrar;
use std::alloc::Global;

pub struct Desk<S: Copy, R: Copy> {
    pub heap: Global,
    pub registrar: Registrar,
    pub store: Store<S, R>,
    pub images: Vec<Published<S, R>>,
    pub blank: Entry<S, R>,
    pub holdings: Holdings<S, R>,
}

impl<S: Stamp, R: Copy> Desk<S, R> {
    // A desk with a new register of these opening values, with tables for so many jobs in the journal.
    pub fn new(heap: Global, values: &[R], journal: usize) -> Result<Desk<S, R>, Failure>
        ensures numbers { IfOk result (λ d. d.registrar ≡ founded_numbers (length values.now)) }
        ensures images { IfOk result (λ d. map (λ p. image_kept p) d.images.items ≡ opening_image S.Stamp.kind.order values.now ∷ []) }
        ensures names { IfOk result (λ d. d.holdings.named.entries ≡ []) }
        ensures refused { IfErr result (λ f. IsNoFounding f) }
    {
        let Some(first) = values.first() else {
            let mut store: Store<S, R> = Store::empty(heap);
            return match Registrar::found(values, store.lend()) {
                Ok(_) => unreachable!(),
                Err(refusal) => Err(refusal.into()),
            };
        };
        let first = *first;
        let mut store = Store::new(heap, first, values.len(), journal)?;
        let registrar = Registrar::found(values, store.lend())?;
        let mut images = Vec::new(heap);
        images.push(Published::opening(heap, values)?)?;
        Ok(Desk {
            heap,
            registrar,
            store,
            images,
            blank: blank(first),
            holdings: Holdings::new(heap),
        })
    }

    // Ends the run: every ticket is waived, and the tables are handed over. Answers the number of jobs in
    // the journal.
    pub fn close(self) -> usize
        ensures jobs { result ≡ self.registrar.jobs }
        ensures law { AccountedFor S.Stamp.kind (registry_kept self.registrar self.store) }
    {
        let Desk {
            heap: _,
            registrar,
            store,
            images: _,
            blank: _,
            holdings,
        } = self;
        holdings.close();
        store.books(&registrar).hand_over()
    }
}
