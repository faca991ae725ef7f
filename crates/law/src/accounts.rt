// The law of runs.
ghost use Rattle.law.specs.Account.{StampOrderAccounts};
ghost use Rattle.law.specs.Promises.{PromisesKept};

use kinds::stamp::Stamp;

// After every run of a founded registrar, for every stamp kind and every record kind, the stamp order
// accounts for all that was accepted: played from the opening values in any order in which no stamp
// falls, each noted look shows what stands just before its job, the play ends at the registrar's
// values and write stamps, and the journal is the accepted jobs in final order.
pub fn stamp_order_accounts<S: Stamp, R>()
    ensures { StampOrderAccounts S.Stamp.kind R }
{}

// What users lean on after every run: stamps after the least, tickets that are distinct and at least 1,
// few records to a job and none twice, record numbers below N, rising versions, and a place for every
// live job that has an entry.
pub fn promises_kept<S: Stamp, R>()
    ensures { PromisesKept S.Stamp.kind R }
{}
