//! The types by their names.

use crate::answer::{
    answer, answer_of_documents, answer_of_events, answer_of_slice, answer_of_stream, bytes_of,
};
use crate::callers::{
    Person, Service, all_jobs, count_services, longest_name, placed, read_service, write_service,
};
use crate::ends::{answer_of_broken, answer_of_reader};
use crate::json::{Job, to_json};
use crate::merging::{agree, answer_of_merging};
use crate::places::{Asked, Way, is_read_of_json, places, told_complaint};
use crate::readme::renamed;
use crate::values::answer_of_value;
use derived_types::any::{Choice, Either, Parcel, Sign, Task};
use derived_types::enums::{Command, Figure, Scalar, Step};
use derived_types::floats::Weather;
use derived_types::holders::{Backoff, Chain, Timeout};
use derived_types::limits::{Nest, Passed};
use derived_types::plain::{Ends, Metres, Nothing, Pair, Percent};
use derived_types::structs::{Mark, Note, Setting, Window};
use derived_types::variants::{Deed, Drawing};
use std::alloc::Global;
use std::borrow::CowStr;
use std::collections::{BTreeMap, BTreeSet, HashMap, HashSet, VecDeque};
use yaml::with::Singletons;
use yaml::{Error, Mapping, Merge, Number, Value, to_string};

// What a text is answered that is read with places.
fn answer_with_places(alloc: Global, name: &str, text: &str) -> Result<String, Error> {
    match name {
        "Asked" => answer::<Asked>(alloc, text),
        "Asked/events" => answer_of_events::<Asked>(alloc, text),
        "Way" => answer::<Way>(alloc, text),
        "complaint" => told_complaint(alloc, text),
        "places" => places(alloc, text),
        "is_read_of_json" => is_read_of_json(alloc, text),
        _ => answer_as_any(alloc, name, text),
    }
}

// What a text is answered that is read as a type of std.
fn answer_as_standard(alloc: Global, name: &str, text: &str) -> Result<String, Error> {
    match name {
        "bool" => answer::<bool>(alloc, text),
        "i8" => answer::<i8>(alloc, text),
        "u8" => answer::<u8>(alloc, text),
        "i64" => answer::<i64>(alloc, text),
        "i64/stream" => answer_of_stream::<i64>(alloc, bytes_of(alloc, text)?.as_slice()),
        "u64" => answer::<u64>(alloc, text),
        "i128" => answer::<i128>(alloc, text),
        "u128" => answer::<u128>(alloc, text),
        "f32" => answer::<f32>(alloc, text),
        "f64" => answer::<f64>(alloc, text),
        "char" => answer::<char>(alloc, text),
        "()" => answer::<()>(alloc, text),
        "String" => answer::<String>(alloc, text),
        "&str" => answer::<&str>(alloc, text),
        "CowStr" => answer::<CowStr<'_>>(alloc, text),
        "Option<u8>" => answer::<Option<u8>>(alloc, text),
        "Vec<u8>" => answer::<Vec<u8>>(alloc, text),
        "(u8,bool)" => answer::<(u8, bool)>(alloc, text),
        "BTreeMap<String,u8>" => answer::<BTreeMap<String, u8>>(alloc, text),
        "HashMap<String,u8>" => answer::<HashMap<String, u8>>(alloc, text),
        _ => answer_as_holder(alloc, name, text),
    }
}

// The same, of types of std around others.
fn answer_as_holder(alloc: Global, name: &str, text: &str) -> Result<String, Error> {
    match name {
        "(u8,)" => answer::<(u8,)>(alloc, text),
        "(u8,bool,char)" => answer::<(u8, bool, char)>(alloc, text),
        "(u8,bool,char,String)" => answer::<(u8, bool, char, String)>(alloc, text),
        "[u8;2]" => answer::<[u8; 2]>(alloc, text),
        "VecDeque<u8>" => answer::<VecDeque<u8>>(alloc, text),
        "HashSet<u8>" => answer::<HashSet<u8>>(alloc, text),
        "BTreeSet<String>" => answer::<BTreeSet<String>>(alloc, text),
        "BTreeMap<i64,bool>" => answer::<BTreeMap<i64, bool>>(alloc, text),
        "BTreeMap<bool,u8>" => answer::<BTreeMap<bool, u8>>(alloc, text),
        "BTreeMap<char,()>" => answer::<BTreeMap<char, ()>>(alloc, text),
        "HashMap<u16,Vec<Option<u8>>>" => answer::<HashMap<u16, Vec<Option<u8>>>>(alloc, text),
        "Box<Pair>" => answer::<Box<Pair>>(alloc, text),
        "Option<Option<u8>>" => answer::<Option<Option<u8>>>(alloc, text),
        "Vec<Option<Option<u8>>>" => answer::<Vec<Option<Option<u8>>>>(alloc, text),
        "Timeout" => answer::<Timeout>(alloc, text),
        "Backoff" => answer::<Backoff>(alloc, text),
        "Chain" => answer::<Chain>(alloc, text),
        _ => Err(Error::custom(String::from_str(alloc, "no such type")?)),
    }
}

// What a text is answered that is read as a value of any kind, or as a type with one.
fn answer_as_any(alloc: Global, name: &str, text: &str) -> Result<String, Error> {
    match name {
        "Value" => answer::<Value>(alloc, text),
        "Value/events" => answer_of_events::<Value>(alloc, text),
        "Value/documents" => answer_of_documents::<Value>(alloc, text),
        "Vec<Value>" => answer::<Vec<Value>>(alloc, text),
        "Option<Value>" => answer::<Option<Value>>(alloc, text),
        "Mapping" => answer::<Mapping>(alloc, text),
        "Number" => answer::<Number>(alloc, text),
        "Parcel" => answer::<Parcel>(alloc, text),
        "Task" => answer::<Task>(alloc, text),
        "Task/events" => answer_of_events::<Task>(alloc, text),
        "Sign" => answer::<Sign>(alloc, text),
        "Either" => answer::<Either>(alloc, text),
        "Choice" => answer::<Choice>(alloc, text),
        "BTreeMap<String,Value>" => answer::<BTreeMap<String, Value>>(alloc, text),
        _ => answer_as_singletons(alloc, name, text),
    }
}

// What a text is answered that is read as a type whose variants are mappings.
fn answer_as_singletons(alloc: Global, name: &str, text: &str) -> Result<String, Error> {
    match name {
        "Drawing" => answer::<Drawing>(alloc, text),
        "Drawing/events" => answer_of_events::<Drawing>(alloc, text),
        "Singletons<Deed>" => answer::<Singletons<Deed>>(alloc, text),
        "Singletons<Deed>/documents" => answer_of_documents::<Singletons<Deed>>(alloc, text),
        "Singletons<Vec<Figure>>" => answer::<Singletons<Vec<Figure>>>(alloc, text),
        "Singletons<BTreeMap<String,Option<Deed>>>" => {
            answer::<Singletons<BTreeMap<String, Option<Deed>>>>(alloc, text)
        }
        _ => answer_as_standard(alloc, name, text),
    }
}

// A service that is written again, or its fault with the place in front.
fn answer_in_front(alloc: Global, text: &str) -> Result<String, Error> {
    match read_service(alloc, text) {
        Ok(service) => write_service(alloc, &service),
        Err(fault) => Ok(placed(alloc, "web.yaml", &fault)?),
    }
}

// What the functions of this name answer.
fn answer_by_function(alloc: Global, name: &str, text: &str) -> Result<String, Error> {
    match name {
        "read_service" => write_service(alloc, &read_service(alloc, text)?),
        "longest_name" => Ok(String::from_str(alloc, longest_name(alloc, text)?)?),
        "all_jobs" => to_string(alloc, &all_jobs(alloc, text)?),
        "count_services" => to_string(alloc, &count_services(alloc, text)?),
        "placed" => answer_in_front(alloc, text),
        "to_json" => to_json(alloc, text),
        "renamed" => renamed(alloc, text),
        "agree" => agree(alloc, text),
        _ => answer_by_deed(alloc, name, text),
    }
}

// What is answered of the name of a deed and of what it is done with.
fn answer_by_deed(alloc: Global, name: &str, text: &str) -> Result<String, Error> {
    match name.split_once(':') {
        Some(("Value", deed)) => answer_of_value(alloc, deed, text),
        Some(("keep", name)) => answer_of_merging(alloc, name, text, Merge::Keep),
        Some(("apply", name)) => answer_of_merging(alloc, name, text, Merge::Apply),
        Some(("refuse", name)) => answer_of_merging(alloc, name, text, Merge::Refuse),
        _ => answer_with_places(alloc, name, text),
    }
}

/// What a text is answered that is read as the type of this name.
pub fn answer_as(alloc: Global, name: &str, text: &str) -> Result<String, Error> {
    match name {
        "Service" => answer::<Service>(alloc, text),
        "Service/slice" => answer_of_slice::<Service>(alloc, text),
        "Service/events" => answer_of_events::<Service>(alloc, text),
        "Service/reader" => answer_of_reader::<Service>(alloc, text),
        "Service/broken" => answer_of_broken::<Service>(alloc, text),
        "Person" => answer::<Person<'_>>(alloc, text),
        "Person/documents" => answer_of_documents::<Person<'_>>(alloc, text),
        "Note" => answer::<Note<'_>>(alloc, text),
        "Job" => answer::<Job>(alloc, text),
        "Setting" => answer::<Setting>(alloc, text),
        "Window" => answer::<Window>(alloc, text),
        "Mark" => answer::<Mark>(alloc, text),
        "Figure" => answer::<Figure>(alloc, text),
        "Vec<Figure>" => answer::<Vec<Figure>>(alloc, text),
        "Command" => answer::<Command>(alloc, text),
        "Step" => answer::<Step>(alloc, text),
        "Scalar" => answer::<Scalar>(alloc, text),
        "Vec<Scalar>" => answer::<Vec<Scalar>>(alloc, text),
        "BTreeMap<String,Scalar>" => answer::<BTreeMap<String, Scalar>>(alloc, text),
        "Nest" => answer::<Nest>(alloc, text),
        "Passed" => answer::<Passed>(alloc, text),
        "Metres" => answer::<Metres>(alloc, text),
        "Nothing" => answer::<Nothing>(alloc, text),
        "Pair" => answer::<Pair>(alloc, text),
        "Ends<i8>" => answer::<Ends<i8>>(alloc, text),
        "Ends<Option<Pair>>" => answer::<Ends<Option<Pair>>>(alloc, text),
        "Percent" => answer::<Percent>(alloc, text),
        "Weather" => answer::<Weather>(alloc, text),
        _ => answer_by_function(alloc, name, text),
    }
}
