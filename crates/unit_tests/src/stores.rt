// Names that become known, and keys that are woken.

use std::alloc::AllocError;
use std::process::Abort;
use std::test::Fail;
use tree_node::VarName;
use tree_store::Store;

fn var(num: u64) -> VarName {
    VarName { site: 1, num }
}

fn fresh(store: &mut Store, num: u64) -> Result<Option<VarName>, AllocError> {
    if store.known(VarName { site: 1, num }) {
        return Ok(None);
    }
    let var = store.fresh(1, num)?;
    Ok(Some(var))
}

// Names of site 1 from 0 to 3 become known.
fn makes_names<R: Abort>(rt: &R, store: &mut Store) -> Result<(), AllocError> {
    for num in 0..3 {
        assert_eq!(rt; fresh(store, num)?, Some(var(num)));
    }
    assert_eq!(rt; fresh(store, 1)?, None);
    store.know(var(3))
}

#[test]
fn names_become_known(rt: HostRuntime) -> Result<(), Fail> {
    let mut store = Store::new(rt.alloc());
    makes_names(&rt, &mut store)?;
    assert!(rt; store.known(var(3)) && !store.known(var(9)));
    Ok(())
}

// The keys that are woken by a variable.
fn has_keys<R: Abort>(rt: &R, store: &mut Store, num: u64, keys: &[usize]) {
    assert_eq!(rt; store.wake(var(num)).as_slice(), keys);
}

// Keys wait for two variables.
fn keys_wait(store: &mut Store) -> Result<(), AllocError> {
    for (num, key) in [(0, 7), (1, 9), (0, 8)] {
        store.wait(var(num), key)?;
    }
    Ok(())
}

#[test]
fn keys_are_woken_in_order(rt: HostRuntime) -> Result<(), Fail> {
    let mut store = Store::new(rt.alloc());
    keys_wait(&mut store)?;
    has_keys(&rt, &mut store, 0, &[7, 8]);
    has_keys(&rt, &mut store, 0, &[]);
    has_keys(&rt, &mut store, 1, &[9]);
    Ok(())
}
