//! A key and a number at a few places.
use crate::{Class, Key, KeyNumber};
use etx_prims::{IntParam, RegisterKind};
use std::test::Fail;

/// Whether the number of a key leads back to it.
fn comes_back(key: Key) -> bool {
    match key.number().key() {
        Some(other) => other == key,
        None => false,
    }
}

fn skip(number: u16) -> Key {
    Key::Register {
        kind: RegisterKind::Skip,
        number,
    }
}

#[test]
fn keys_come_back(rt: HostRuntime) -> Result<(), Fail> {
    let last = skip(32767);
    assert!(rt; comes_back(Key::Int(IntParam::Tolerance)));
    assert!(rt; comes_back(last));
    assert!(rt; last.class() == Class::Glue);
    assert!(rt; !last.number().is_dense());
    assert!(rt; !skip(32768).exists() && !comes_back(skip(32768)));
    assert!(rt; (KeyNumber { kind: 2, at: 60 }).key().is_none());
    Ok(())
}
