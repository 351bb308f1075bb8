//! What a worker made ready goes before what was dealt to it.

use crate::tests::comparing::expect;
use bench_types::Fault;
use work::Tasks;

#[test]
fn what_a_worker_made_ready_goes_first(rt: HostRuntime) -> Result<(), Fault> {
    let mut dealt = Tasks::deal(rt.alloc(), 1, &[0, 1])?;
    let Some(mut tasks) = dealt.pop() else {
        return Err(Fault::NoThread);
    };
    expect(&rt, tasks.next(9), Some(0));
    tasks.push_freed(Some(7))?;
    // (it lies in the deque too)
    for wanted in [Some(7), Some(1), Some(7), None] {
        expect(&rt, tasks.next(9), wanted);
    }
    Ok(())
}
