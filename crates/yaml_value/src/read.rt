//! Values as they are read by the crate `serde`.

mod shared;

use crate::mapping::Mapping;
use crate::number::Number;
use crate::sequence::Sequence;
use crate::tag::Tag;
use crate::value::Value;
use serde::{Deserialize, DeserializeOwned, Deserializer, Format, Kind, Name};
use shared::Members;
use std::alloc::Global;
use std::fmt;
use yaml_base::{Quoted, resolve};
use yaml_float::parse_f64;
use yaml_tree::TreeFault;

/// The name by which a value asks for the tag of what comes. A format that knows tags tells a tagged node as of kind
/// `Bytes`, and answers this name where it is asked for the first key there. It then gives the tag's name as bytes, the
/// node as it is without its tag, and the end of the map. No other format has to know of it.
pub const TAG_MARK: &str = "\u{0}yaml::tag";

// So many nodes one within the other are read, a tag being one too. Readers of YAML and of JSON refuse sooner.
const NESTINGS: usize = 1_000;

impl<'de> Deserialize<'de> for Value {
    fn deserialize<F: Format>(
        alloc: Global,
        from: &mut Deserializer<'de, '_, F>,
    ) -> Result<Value, F::Error> {
        fetch(alloc, from, NESTINGS)
    }
}

impl DeserializeOwned for Value {
    fn deserialize_owned<F: Format>(
        alloc: Global,
        from: &mut Deserializer<'_, '_, F>,
    ) -> Result<Value, F::Error> {
        fetch(alloc, from, NESTINGS)
    }
}

impl<'de> Deserialize<'de> for Mapping {
    fn deserialize<F: Format>(
        alloc: Global,
        from: &mut Deserializer<'de, '_, F>,
    ) -> Result<Mapping, F::Error> {
        fetch_mapping(alloc, from)
    }
}

impl DeserializeOwned for Mapping {
    fn deserialize_owned<F: Format>(
        alloc: Global,
        from: &mut Deserializer<'_, '_, F>,
    ) -> Result<Mapping, F::Error> {
        fetch_mapping(alloc, from)
    }
}

impl<'de> Deserialize<'de> for Number {
    fn deserialize<F: Format>(
        alloc: Global,
        from: &mut Deserializer<'de, '_, F>,
    ) -> Result<Number, F::Error> {
        fetch_number(alloc, from)
    }
}

impl DeserializeOwned for Number {
    fn deserialize_owned<F: Format>(
        alloc: Global,
        from: &mut Deserializer<'_, '_, F>,
    ) -> Result<Number, F::Error> {
        fetch_number(alloc, from)
    }
}

/// A mapping, or what is left of one that others share.
pub(crate) fn fetch_mapping<F: Format>(
    alloc: Global,
    from: &mut Deserializer<'_, '_, F>,
) -> Result<Mapping, F::Error> {
    match from.swap_taken(None) {
        Some(taken) => fetch_rest(alloc, from, taken),
        None => fetch_entries(alloc, from, Members::all(), NESTINGS),
    }
}

fn fetch_rest<F: Format>(
    alloc: Global,
    from: &mut Deserializer<'_, '_, F>,
    taken: u64,
) -> Result<Mapping, F::Error> {
    let mapping = fetch_entries(alloc, from, Members::but(taken), NESTINGS)?;
    from.swap_taken(Some(taken));
    Ok(mapping)
}

// A number. Behind a local tag it is what the text there is.
fn fetch_number<F: Format>(
    alloc: Global,
    from: &mut Deserializer<'_, '_, F>,
) -> Result<Number, F::Error> {
    match from.peek()? {
        Kind::Bytes => {
            let kind = look_behind_tag(alloc, from)?;
            fetch_number_as(alloc, from, kind)
        }
        kind => fetch_number_as(alloc, from, kind),
    }
}

// Of which kind the text of a node with a tag is.
fn look_behind_tag<F: Format>(
    alloc: Global,
    from: &mut Deserializer<'_, '_, F>,
) -> Result<Kind, F::Error> {
    let mark = from.mark();
    let read = from.string(alloc);
    from.rewind(mark);
    from.release(mark);
    Ok(kind_of_text(read?.as_str()))
}

fn kind_of_text(text: &str) -> Kind {
    match resolve(text) {
        yaml_base::Kind::Null => Kind::Unit,
        yaml_base::Kind::Bool(_) => Kind::Bool,
        yaml_base::Kind::Unsigned(_) => Kind::Unsigned,
        yaml_base::Kind::Signed(_) => Kind::Signed,
        yaml_base::Kind::Float => Kind::Float,
        yaml_base::Kind::Str => Kind::Str,
    }
}

// A number that is looked at as of this kind. A text is none, though a float may be read of it, as of `01`.
fn fetch_number_as<F: Format>(
    alloc: Global,
    from: &mut Deserializer<'_, '_, F>,
    kind: Kind,
) -> Result<Number, F::Error> {
    match kind {
        Kind::Unsigned => Ok(Number::from_u128(from.u128()?)),
        Kind::Signed => Ok(Number::from_i128(from.i128()?)),
        Kind::Str => {
            let text = from.string(alloc)?;
            Err(fault_of_text(alloc, from, text.as_str()))
        }
        _ => Ok(Number::from_f64(from.f64()?)),
    }
}

// The fault of a text where a number is read.
fn fault_of_text<F: Format>(alloc: Global, from: &Deserializer<'_, '_, F>, text: &str) -> F::Error {
    let quoted = Quoted(text);
    match format!(in alloc; "invalid type: string {quoted}, expected a number") {
        Ok(message) => from.custom(message.as_str()),
        Err(_) => from.no_memory(),
    }
}

#[cycle(fetch)]
fn fetch<F: Format>(
    alloc: Global,
    from: &mut Deserializer<'_, '_, F>,
    nestings: usize,
) -> Result<Value, F::Error> {
    let Some(left) = nestings.checked_sub(1) else {
        return Err(from.custom("recursion limit exceeded"));
    };
    match from.peek()? {
        Kind::Seq => Ok(Value::Sequence(fetch_sequence(alloc, from, left)?)),
        Kind::Map => {
            let mapping = fetch_entries(alloc, from, Members::all(), left)?;
            Ok(Value::Mapping(mapping))
        }
        Kind::Bytes => fetch_tagged(alloc, from, left),
        kind => fetch_scalar(alloc, from, kind),
    }
}

#[cycle(fetch)]
fn fetch_sequence<F: Format>(
    alloc: Global,
    from: &mut Deserializer<'_, '_, F>,
    nestings: usize,
) -> Result<Sequence, F::Error> {
    from.begin_seq()?;
    let mut items = Vec::new(alloc);
    for _ in 0..u64::MAX {
        if !from.next_item()? {
            break;
        }
        let item = fetch(alloc, from, nestings)?;
        if items.push(item).is_err() {
            return Err(from.no_memory());
        }
    }
    Ok(Sequence { items })
}

// The members of a map, but those that others use up.
#[cycle(fetch)]
fn fetch_entries<F: Format>(
    alloc: Global,
    from: &mut Deserializer<'_, '_, F>,
    members: Members,
    nestings: usize,
) -> Result<Mapping, F::Error> {
    let mut members = members;
    let mut mapping = Mapping::new(alloc);
    from.begin_map()?;
    for _ in 0..u64::MAX {
        if !from.next_entry()? {
            break;
        }
        if members.passes_next(from)? {
            from.skip()?;
            from.skip()?;
        } else {
            fetch_entry(alloc, from, &mut mapping, nestings)?;
        }
    }
    Ok(mapping)
}

#[cycle(fetch)]
fn fetch_entry<F: Format>(
    alloc: Global,
    from: &mut Deserializer<'_, '_, F>,
    mapping: &mut Mapping,
    nestings: usize,
) -> Result<(), F::Error> {
    let key = fetch(alloc, from, nestings)?;
    if mapping.get_at(&key).is_some() {
        return Err(fault_of_twice(alloc, from, &key));
    }
    let value = fetch(alloc, from, nestings)?;
    match mapping.append(key, value) {
        Ok(()) => Ok(()),
        Err(_) => Err(from.no_memory()),
    }
}

#[cycle(fetch)]
fn fetch_tagged<F: Format>(
    alloc: Global,
    from: &mut Deserializer<'_, '_, F>,
    nestings: usize,
) -> Result<Value, F::Error> {
    let tag = fetch_tag(alloc, from)?;
    let value = fetch(alloc, from, nestings)?;
    if from.next_key(&[])?.is_some() {
        return Err(from.invalid());
    }
    match Value::under_tag(alloc, tag, value) {
        Ok(tagged) => Ok(tagged),
        Err(_) => Err(from.no_memory()),
    }
}

fn fetch_tag<F: Format>(
    alloc: Global,
    from: &mut Deserializer<'_, '_, F>,
) -> Result<Tag, F::Error> {
    from.begin_map()?;
    match from.next_key(&[Name::exact(TAG_MARK)])? {
        Some(0) => {}
        _ => return Err(from.invalid()),
    }
    let name = from.byte_buf(alloc)?;
    let Ok(name) = std::str::from_utf8(name.as_slice()) else {
        return Err(from.invalid());
    };
    match Tag::new(alloc, name) {
        Ok(tag) => Ok(tag),
        Err(TreeFault::EmptyTag) => Err(from.invalid()),
        Err(TreeFault::Memory) => Err(from.no_memory()),
    }
}

// A scalar that is looked at as of this kind. Where it is none of the kind, as a float beyond the range, it is what its
// text is.
fn fetch_scalar<F: Format>(
    alloc: Global,
    from: &mut Deserializer<'_, '_, F>,
    kind: Kind,
) -> Result<Value, F::Error> {
    if matches!(kind, Kind::Str) {
        return Ok(Value::String(from.string(alloc)?));
    }
    let mark = from.mark();
    match fetch_as(from, kind) {
        Ok(value) => {
            from.release(mark);
            Ok(value)
        }
        Err(fault) => {
            if from.is_fatal(&fault) {
                return Err(fault);
            }
            from.rewind(mark);
            from.release(mark);
            fetch_text_as(alloc, from, kind, fault)
        }
    }
}

// What the text of a scalar is, which was refused as one of its kind. If it has no text, the fault is that.
fn fetch_text_as<F: Format>(
    alloc: Global,
    from: &mut Deserializer<'_, '_, F>,
    kind: Kind,
    fault: F::Error,
) -> Result<Value, F::Error> {
    match from.string(alloc) {
        Ok(text) => Ok(value_of_text(kind, text)),
        Err(other) => {
            if from.is_fatal(&other) {
                return Err(other);
            }
            Err(fault)
        }
    }
}

fn fetch_as<F: Format>(from: &mut Deserializer<'_, '_, F>, kind: Kind) -> Result<Value, F::Error> {
    match kind {
        Kind::Bool => Ok(Value::Bool(from.bool()?)),
        Kind::Unsigned => Ok(Value::Number(Number::from_u128(from.u128()?))),
        Kind::Signed => Ok(Value::Number(Number::from_i128(from.i128()?))),
        Kind::Float => Ok(Value::Number(Number::from_f64(from.f64()?))),
        _ => {
            if from.take_unit()? {
                Ok(Value::Null)
            } else {
                Err(from.invalid())
            }
        }
    }
}

// What a text is, of which a float was asked, or anything else.
fn value_of_text(kind: Kind, text: String) -> Value {
    if matches!(kind, Kind::Float) {
        return match parse_f64(text.as_str().as_bytes()) {
            Some(x) => Value::Number(Number::from_f64(x)),
            None => Value::String(text),
        };
    }
    match resolve(text.as_str()) {
        yaml_base::Kind::Null => Value::Null,
        yaml_base::Kind::Bool(truth) => Value::Bool(truth),
        yaml_base::Kind::Unsigned(n) => Value::Number(Number::from_u128(n)),
        yaml_base::Kind::Signed(n) => Value::Number(Number::from_i128(n)),
        yaml_base::Kind::Float | yaml_base::Kind::Str => Value::String(text),
    }
}

// A key that stands twice, as a fault names it.
#[derive(Clone, Copy, Drop)]
struct Twice<'a> {
    key: &'a Value,
}

impl fmt::Display for Twice<'_> {
    fn fmt<W: fmt::Write>(&self, f: &mut fmt::Formatter<W>) -> fmt::Result {
        match self.key {
            Value::Null => f.write_str("duplicate entry with null key"),
            Value::Bool(truth) => write!(f, "duplicate entry with key `{truth}`"),
            Value::Number(number) => write!(f, "duplicate entry with key {number}"),
            Value::String(text) => {
                let quoted = Quoted(text.as_str());
                write!(f, "duplicate entry with key {quoted}")
            }
            _ => f.write_str("duplicate entry in YAML map"),
        }
    }
}

fn fault_of_twice<F: Format>(
    alloc: Global,
    from: &Deserializer<'_, '_, F>,
    key: &Value,
) -> F::Error {
    let twice = Twice { key };
    match format!(in alloc; "{twice}") {
        Ok(message) => from.custom(message.as_str()),
        Err(_) => from.no_memory(),
    }
}
