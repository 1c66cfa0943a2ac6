//! Turns of a world whose program does nothing. What a test made is left to the end of its process: to let it go would be
//! proved once more here.

use crate::programs::program_of;
use site_message::Quantum;
use std::mem::forget;
use std::test::Fail;
use world_core::{World, WorldRefusal, schedule};

#[test]
fn a_place_without_a_message_is_refused(rt: HostRuntime) -> Result<(), Fail> {
    let program = program_of(&rt, rt.alloc(), "skip")?;
    let Ok(mut world) = World::new(rt.alloc(), &program, 2) else {
        panic!(rt; "no memory")
    };
    assert!(rt; world.turn(1, Some(0), Quantum(64)) == Err(WorldRefusal::NotThere));
    let (journal, _) = world.into_history().into_parts();
    journal.forget();
    forget(program);
    Ok(())
}

#[test]
fn a_turn_that_ends_all_leaves_the_world_quiet(rt: HostRuntime) -> Result<(), Fail> {
    let program = program_of(&rt, rt.alloc(), "skip")?;
    let Ok(mut world) = World::new(rt.alloc(), &program, 2) else {
        panic!(rt; "no memory")
    };
    assert!(rt; world.turn(1, None, Quantum(64)).is_ok());
    assert!(rt; world.quiet());
    let picks = schedule(rt.alloc(), world.journal());
    let (journal, _) = world.into_history().into_parts();
    journal.forget();
    forget(program);
    assert_eq!(rt; picks?.len(), 1);
    Ok(())
}
