//! Values and lines of JSON.

use json_line::{line, object, text_value};
use serde_json::json;

#[test]
fn writes_lines_of_json(rt: HostRuntime) {
    let alloc = rt.alloc();
    let name = text_value(alloc, "line\n\"é\"").expect(&rt, "memory");
    let mut fields = Vec::new(alloc);
    let later = String::from_str(alloc, "text").expect(&rt, "memory");
    fields.push((later, name)).expect(&rt, "memory");
    let earlier = String::from_str(alloc, "name").expect(&rt, "memory");
    let number = json!(in alloc; [7, null, true]).expect(&rt, "memory");
    fields.push((earlier, number)).expect(&rt, "memory");
    let value = object(alloc, fields).expect(&rt, "memory");
    let text = line(alloc, &value).expect(&rt, "memory");
    assert_eq!(&rt;
        text.as_str(),
        "{\"name\":[7,null,true],\"text\":\"line\\n\\\"é\\\"\"}\n"
    );
}
