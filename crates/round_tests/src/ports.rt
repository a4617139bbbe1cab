//! Data under a schema, which reads back from its own text.

use serde_yaml::Limits;
use std::alloc::Global;
use std::test::Fail;
use yaml_round::data_again::{data_read_back, data_text_of};
use yaml_shape::{Data, Entry, Schema, Shape, ShapeId, Text, Typed};

// A number by its name.
fn port<'a>(name: &'a str, number: u128) -> Entry<'a> {
    Entry {
        key: Data::Str(Text::Borrowed(name)),
        value: Data::Unsigned(number),
    }
}

// Whether it is this number by this name.
fn is_port(found: &Entry<'_>, name: &str, number: u128) -> bool {
    match (&found.key, &found.value) {
        (Data::Str(key), Data::Unsigned(value)) => *key == Text::Borrowed(name) && *value == number,
        _ => false,
    }
}

// Whether the data is the two ports, in their order.
fn is_ports(found: &Data<'_>) -> bool {
    match found {
        Data::Map(entries) => match entries.as_slice() {
            [first, second] => is_port(first, "web", 8080) && is_port(second, "12", 7),
            _ => false,
        },
        _ => false,
    }
}

// Mappings of texts to numbers.
fn numbers_by_name(alloc: Global) -> Result<Schema, Fail> {
    let map = Shape::Map(ShapeId(1), ShapeId(2));
    Ok(Schema::new(alloc, vec![in alloc; map, Shape::Str, Shape::U16]?)?)
}

#[test]
fn data_reads_back_from_its_own_text(rt: HostRuntime) -> Result<(), Fail> {
    let (alloc, id) = (rt.alloc(), ShapeId(0));
    let schema = numbers_by_name(alloc)?;
    let ports = Data::Map(vec![in alloc; port("web", 8080), port("12", 7)]?);
    let Some(typed) = Typed::new(&schema, id, &ports) else {
        return Err("of another shape")?;
    };
    let text = data_text_of(alloc, &typed)?;
    assert_eq!(rt; text.as_str(), "web: 8080\n'12': 7\n");
    for (text, same) in [(text.as_str(), true), ("web: 8080\n", false)] {
        let found = data_read_back(alloc, &typed, text, Limits::DEFAULT)?;
        assert!(rt; is_ports(&found) == same, "{text}");
    }
    Ok(())
}
