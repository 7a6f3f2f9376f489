//! A run whose memory may be refused.

use crate::RunError;
use crate::tests::plans::{TWO_RECORDS, plan_of};
use crate::tests::shelves::{run_on, shelf_of};
use cluster_users::Open;
use std::test::Fail;

/// Whichever allocation is refused (`rt try --test --fail-alloc N`), the run ends, and a refusal is its only fault.
#[test]
fn memory_may_be_refused(rt: HostRuntime) -> Result<(), Fail> {
    let alloc = rt.alloc();
    let plan = plan_of(alloc, &TWO_RECORDS)?;
    let mut shelf = shelf_of(alloc, &[])?;
    let result = run_on(&rt, alloc, &plan, &mut shelf, &Open);
    assert!(rt; matches!(result, Ok(_) | Err(RunError::OutOfMemory)));
    Ok(())
}
