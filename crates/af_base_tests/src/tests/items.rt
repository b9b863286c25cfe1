use super::asserts::holds;
use af_base::Items;
use af_names::TaskId;
use std::alloc::Global;
use std::test::Fail;

/// The ids of these texts, as a list.
fn ids(alloc: Global, texts: &[&str]) -> Result<Items<TaskId>, Fail> {
    let mut ids = Vec::new(alloc);
    for text in texts {
        ids.push(TaskId::parse(alloc, text)?)?;
    }
    Ok(Items::of(ids))
}

/// A copy of two ids with another in the place of the second, and a third where there is no place.
fn changed(alloc: Global, ids: &Items<TaskId>) -> Result<Vec<TaskId>, Fail> {
    let mut copy = ids.copied(alloc)?;
    copy.set(1, TaskId::parse(alloc, "c")?);
    copy.set(2, TaskId::parse(alloc, "d")?);
    Ok(copy.into_vec())
}

#[test]
fn a_copy_is_changed_apart(rt: HostRuntime) -> Result<(), Fail> {
    let first = ids(rt.alloc(), &["a", "b"])?;
    let changed = changed(rt.alloc(), &first)?;
    let again = ids(rt.alloc(), &["a", "b"])?;
    holds(&rt, first.as_slice() == again.as_slice(), "as before");
    let wanted = ids(rt.alloc(), &["a", "c"])?;
    holds(&rt, changed.as_slice() == wanted.as_slice(), "the copy");
    Ok(())
}
