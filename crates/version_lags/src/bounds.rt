//! The parts of the tables that the threads of a crew count.

ghost use Rattle.std.specs.Prelude.{◌≤◌, IfOk, IfSome, IsOkUnless};
ghost use Rattle.version_lags.specs.Common.{OutOfMemory, AreBounds};

use bench_types::Fault;
use planes::Number;
use round_histories::Hands;
use std::alloc::Global;
use std::mem::size_of_val;

// Parts of twice as many bytes of numbers took as long, larger ones up to a tenth longer.
const LEAST_BYTES_OF_A_PART: usize = 65_536;

// To start a thread for fewer takes longer than it saves.
pub(crate) const LEAST_BYTES_OF_A_THREAD: usize = 524_288;

/// For how many threads there is enough to do, at least so many bytes of numbers for each.
pub(crate) fn threads_for(bytes: usize, least: usize, hands: Hands) -> usize
    requires { 1 ≤ least }
    ensures { 1 ≤ result }
{
    hands.processors.get().min(bytes / least).max(1)
}

/// Where the parts of so many tables begin and end of which the workers of a round count one each; `last` is as long as
/// a table. `None` tells that there is too little for two of them, or enough for more threads than there are workers.
/// An error is lack of memory for the bounds (`OutOfMemory`).
pub fn bounds_for<N: Number>(
    alloc: Global,
    last: &[N],
    tables: usize,
    hands: Hands,
) -> Result<Option<Vec<usize>>, Fault>
    ensures bounds { IfOk result (λ found. IfSome found (λ bounds. AreBounds tables bounds.items)) }
    ensures only { IsOkUnless result OutOfMemory }
{
    let bytes = size_of_val(last).saturating_mul(tables);
    let workers = hands.workers as usize;
    let parts = threads_for(bytes, LEAST_BYTES_OF_A_PART, hands).min(workers);
    if parts < 2 || workers < threads_for(bytes, LEAST_BYTES_OF_A_THREAD, hands) {
        return Ok(None);
    }
    let bounds = bounds(alloc, tables, (tables / parts).saturating_add(1))?;
    Ok(Some(bounds))
}

// Of parts of so many tables each, and the rest.
fn bounds(alloc: Global, tables: usize, size: usize) -> Result<Vec<usize>, Fault>
    requires { 1 ≤ size }
    ensures { IfOk result (λ bounds. AreBounds tables bounds.items) × IsOkUnless result OutOfMemory }
{
    let mut bounds = vec![in alloc; 0; 1]?;
    let mut at = 0;
    while tables - at > size {
        at += size;
        bounds.push(at)?;
    }
    bounds.push(tables)?;
    Ok(bounds)
}
