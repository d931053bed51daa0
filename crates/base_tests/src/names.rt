//! Names compared and used as keys.

use super::keys::{digest, is_before};
use aerie_base::Name;

#[test]
fn compares_names_by_their_bytes(rt: HostRuntime) {
    let name = Name::new(rt.alloc(), "power")
        .expect(&rt, "memory")
        .expect(&rt, "a name");
    let later = Name::new(rt.alloc(), "storage")
        .expect(&rt, "memory")
        .expect(&rt, "a name");
    let copy = name.copy(rt.alloc()).expect(&rt, "memory");
    assert_eq!(&rt; copy.as_str(), "power");
    assert!(&rt; name.is_same(&copy));
    assert!(&rt; !name.is_same(&later));
    assert!(&rt; name == copy);
    assert!(&rt; is_before(&name, &later));
    assert_eq!(&rt; digest(&name), digest(&copy));
    assert!(&rt; digest(&name) != digest(&later));
}
