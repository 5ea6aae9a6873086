// A snapshot stays while others commit, and an overtaken place does not commit.
use crate::store::VersionStore;
use std::test::Fail;
use stores::{Store, StoreFault};

#[test]
fn a_snapshot_stays(rt: HostRuntime) -> Result<(), Fail> {
    let mut store = VersionStore::new(rt.alloc(), [7; 128])?;
    store.begin(0)?;
    store.begin(1)?;
    store.write(0, 3, 5)?;
    store.commit(0)?;
    assert_eq!(rt; store.value(3)?, 5);
    assert_eq!(rt; store.read(1, 3)?, 7);
    store.write(1, 3, 6)?;
    assert_eq!(rt; store.commit(1), Err(StoreFault::Overtaken));
    assert_eq!(rt; store.is_open(1)?, false);
    assert_eq!(rt; store.value(3)?, 5);
    Ok(())
}
