//! Values, types and times as keys.

use super::keys::digest;
use aerie_base::{Kind, Number, Time, Value};

#[test]
fn hashes_values_types_and_times(rt: HostRuntime) {
    let one = Number::new(1).expect(&rt, "a number");
    let two = Number::new(2).expect(&rt, "a number");
    assert_eq!(&rt; digest(&Value::Int(one)), digest(&Value::Int(one)));
    assert!(&rt; digest(&Value::Int(one)) != digest(&Value::Int(two)));
    assert!(&rt; digest(&Kind::Enum(1)) != digest(&Kind::Enum(2)));
    assert_eq!(&rt;
        Time::new(7).map(|time| digest(&time)),
        Time::new(7).map(|time| digest(&time))
    );
}
