//! Keepers by hand: what they expose, and their calls that fail by plan.
use field_core::{List, Ratio};
use graph_io::{FailingKeeper, Keeper, KeeperFault, Look, MemoryKeeper};
use std::alloc::Global;
use std::test::Fail;

/// Returns a p-value of 0 of a hypothesis at a stage.
fn look(hypothesis: u32, stage: u32) -> Look {
    Look {
        hypothesis,
        stage,
        p: Ratio::new(0, 1),
    }
}

fn one_look(alloc: Global) -> Result<List<Look>, Fail> {
    Ok(List::of([look(0, 1)].to_vec(alloc)?))
}

#[test]
fn a_keeper_in_memory_tells_its_looks(rt: HostRuntime) -> Result<(), Fail> {
    let alloc = rt.alloc();
    let mut keeper = MemoryKeeper::new(one_look(alloc)?);
    keeper.append(alloc, &look(1, 2))?;
    let mut told = List::of([look(9, 9)].to_vec(alloc)?);
    keeper.load(alloc, &mut told)?;
    let wanted = [look(9, 9), look(0, 1), look(1, 2)];
    assert!(rt; told.as_slice() == wanted.as_slice());
    assert!(rt; keeper.looks() == [look(0, 1), look(1, 2)].as_slice());
    Ok(())
}

#[test]
fn planned_calls_fail_and_change_nothing(rt: HostRuntime) -> Result<(), Fail> {
    let alloc = rt.alloc();
    let fails = List::of([2, 3].to_vec(alloc)?);
    let mut keeper = FailingKeeper::new(one_look(alloc)?, fails);
    let mut told = List::new(alloc);
    keeper.append(alloc, &look(1, 2))?;
    assert!(rt; keeper.load(alloc, &mut told) == Err(KeeperFault::Fault));
    assert!(rt; told.is_empty());
    assert!(rt; keeper.append(alloc, &look(2, 1)) == Err(KeeperFault::Fault));
    keeper.load(alloc, &mut told)?;
    let wanted = [look(0, 1), look(1, 2)];
    assert!(rt; told.as_slice() == wanted.as_slice());
    assert!(rt; keeper.looks() == wanted.as_slice());
    Ok(())
}
