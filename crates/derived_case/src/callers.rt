//! Types with derives, read from YAML text and written as it: the callers that `yaml/CALLING.md` quotes.

use serde::{Deserialize, Serialize};
use std::alloc::{AllocError, Global};
use yaml::{DocumentStream, Documents, Error};

/// How a service is reached.
#[derive(Drop, Serialize, Deserialize)]
#[serde(rename_all = "lowercase")]
pub enum Listen {
    /// By whatever the system has.
    Any,
    /// By a port.
    Port(u16),
    /// By a path.
    Socket { path: String },
}

/// A service.
#[derive(Drop, Serialize, Deserialize)]
#[serde(rename_all = "camelCase", deny_unknown_fields)]
pub struct Service {
    pub name: String,
    pub listen: Listen,
    #[serde(default)]
    pub max_jobs: u32,
    #[serde(skip_serializing_if = "Option::is_none")]
    pub label: Option<String>,
}

/// A service of YAML text.
pub fn read_service(alloc: Global, text: &str) -> Result<Service, Error> {
    yaml::from_str(alloc, text)
}

/// A service as YAML text.
pub fn write_service(alloc: Global, service: &Service) -> Result<String, Error> {
    yaml::to_string(alloc, service)
}

/// A fault of a file's text, as `FILE:LINE:COLUMN: FAULT` where its place is known.
pub fn placed(alloc: Global, file: &str, fault: &Error) -> Result<String, AllocError> {
    let Some(place) = fault.location() else {
        return format!(in alloc; "{file}: {fault}");
    };
    let (line, column) = (place.line(), place.column());
    format!(in alloc; "{file}:{line}:{column}: {fault}")
}

/// Someone, by a name that is lent from the text.
#[derive(Drop, Serialize, Deserialize)]
pub struct Person<'a> {
    pub name: &'a str,
}

/// The name that is longest among those of a text's documents.
pub fn longest_name<'a>(alloc: Global, text: &'a str) -> Result<&'a str, Error> {
    let mut longest = "";
    let mut documents = Documents::from_str(alloc, text)?;
    for _ in 0..u64::MAX {
        let Some(read) = documents.read_next::<Person<'a>>() else {
            break;
        };
        let person = read?;
        if person.name.len() > longest.len() {
            longest = person.name;
        }
    }
    Ok(longest)
}

/// How many jobs the services of a text's documents may have in all.
pub fn all_jobs(alloc: Global, text: &str) -> Result<u32, Error> {
    let mut jobs: u32 = 0;
    for service in Documents::from_str(alloc, text)?.into_iter::<Service>() {
        let service = service?;
        jobs = jobs.saturating_add(service.max_jobs);
    }
    Ok(jobs)
}

/// How many services the documents of a text are. One is there at a time, so that a text of many takes the memory of
/// its largest.
pub fn count_services(alloc: Global, text: &str) -> Result<u64, Error> {
    let mut documents = DocumentStream::from_str(alloc, text)?;
    for count in 0..u64::MAX {
        match documents.read_next::<Service>() {
            Some(service) => drop(service?),
            None => return Ok(count),
        }
    }
    Ok(u64::MAX)
}
