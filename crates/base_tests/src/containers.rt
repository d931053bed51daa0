//! Lists, boxes and shared values.

use aerie_base::{Boxed, List, Shared};

/// Takes only what may be used from several threads at once.
fn needs_send_and_sync<T: Send + Sync>(_value: &T) {}

#[test]
fn takes_values_out_of_a_list_and_a_box(rt: HostRuntime) {
    let alloc = rt.alloc();
    let boxed = Boxed::new(alloc, 5_u32).expect(&rt, "memory");
    assert_eq!(&rt; *boxed.get(), 5);
    let mut list = List::new(alloc);
    assert!(&rt; list.is_empty());
    list.push(boxed.into_inner()).expect(&rt, "memory");
    let back = List::from_vec(list.into_vec());
    assert_eq!(&rt; back.len(), 1);
    assert_eq!(&rt; back.as_slice()[0], 5);
}

#[test]
fn shares_a_list_among_owners(rt: HostRuntime) {
    let alloc = rt.alloc();
    let mut list = List::new(alloc);
    list.push(4_u32).expect(&rt, "memory");
    let shared = Shared::new(alloc, list).expect(&rt, "memory");
    needs_send_and_sync(&shared);
    let other = shared.share().expect(&rt, "memory");
    assert_eq!(&rt; other.get().len(), 1);
    assert!(&rt; shared.into_inner().is_none());
    let list = other.into_inner().expect(&rt, "the last owner");
    assert_eq!(&rt; list.len(), 1);
}
