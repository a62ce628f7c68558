//! Tests of the store, at slots that are places in each of its two rows and at slots that are in none.
use etx_undo::{Mark, Slot, Store};
use std::test::Fail;

/// A slot of the row of kind 0, one of the row of all other kinds, and one of each sort that is in no row.
const SLOTS: [Slot; 4] = [
    Slot { kind: 0, at: 300 },
    Slot { kind: 7, at: 255 },
    Slot { kind: 7, at: 256 },
    Slot {
        kind: 0,
        at: 1_048_576,
    },
];

fn holds(store: &Store<u32>, slot: Slot, wanted: Option<u32>) -> bool {
    store.get(slot).copied() == wanted
}

fn held(store: &Store<u32>, mark: Mark, slot: Slot, wanted: Option<u32>) -> bool {
    store.is_live(mark) && store.value_at(mark, slot).copied() == wanted
}

#[test]
fn goes_back_and_looks_back(rt: HostRuntime) -> Result<(), Fail> {
    for (number, slot) in SLOTS.iter().enumerate() {
        let mut store: Store<u32> = Store::new(rt.alloc());
        assert!(rt; holds(&store, *slot, None), "slot {number}");
        store.set(*slot, 1)?;
        let mark = store.mark();
        store.set(*slot, 2)?;
        store.set(Slot { kind: 3, at: 9 }, 3)?;
        assert!(rt; holds(&store, *slot, Some(2)), "slot {number}");
        assert!(rt; held(&store, mark, *slot, Some(1)), "slot {number}");
        assert!(rt;
            held(&store, mark, Slot { kind: 3, at: 9 }, None),
            "slot {number}"
        );
        store.back_to(mark);
        assert!(rt; holds(&store, *slot, Some(1)), "slot {number}");
        assert!(rt;
            holds(&store, Slot { kind: 3, at: 9 }, None),
            "slot {number}"
        );
        store.forget();
        assert!(rt;
            holds(&store, *slot, Some(1)) && store.mark().place == 0,
            "slot {number}"
        );
        assert!(rt; !store.is_live(mark), "slot {number}");
    }
    Ok(())
}

/// Whether each of the slots has its own value: none is the place of another.
fn are_apart(store: &Store<u32>) -> bool {
    holds(store, Slot { kind: 0, at: 300 }, Some(10))
        && holds(store, Slot { kind: 1, at: 44 }, Some(11))
        && holds(store, Slot { kind: 1, at: 300 }, Some(12))
        && holds(store, Slot { kind: 2, at: 44 }, None)
}

#[test]
fn slots_are_apart(rt: HostRuntime) -> Result<(), Fail> {
    let mut store: Store<u32> = Store::new(rt.alloc());
    store.set(Slot { kind: 0, at: 300 }, 10)?;
    store.set(Slot { kind: 1, at: 44 }, 11)?;
    store.set(Slot { kind: 1, at: 300 }, 12)?;
    assert!(rt; are_apart(&store));
    Ok(())
}

#[test]
fn takes_back_many_sets(rt: HostRuntime) -> Result<(), Fail> {
    let mut store: Store<u32> = Store::new(rt.alloc());
    let slot = Slot { kind: 0, at: 3 };
    store.set(slot, 30)?;
    let mark = store.mark();
    for n in 0..100_000u32 {
        store.set(
            Slot {
                kind: 0,
                at: n % 1000,
            },
            n,
        )?;
    }
    assert!(rt; store.mark().place == 100_001 && holds(&store, slot, Some(99_003)));
    assert!(rt; store.is_live(mark));
    store.back_to(mark);
    assert!(rt; store.mark().place == 1 && holds(&store, slot, Some(30)));
    assert!(rt; holds(&store, Slot { kind: 0, at: 4 }, None));
    Ok(())
}
