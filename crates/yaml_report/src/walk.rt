//! A walk over the events of a text, which keeps the keys and the anchors that it passes.

use crate::findings::{Findings, Repeated, Unanchored};
use crate::hint::nearest;
use std::alloc::{AllocError, Global};
use std::collections::BTreeMap;
use yaml_base::{Anchor, Event, Kind, Mark, Scalar, ScalarStyle, resolve};
use yaml_scan::Fault;

// A collection that is open.
#[derive(Drop)]
struct Level {
    mark: Mark,
    is_mapping: bool,
    // Whether the next node is a key.
    is_key: bool,
    // The keys of a mapping, each with where it stands.
    keys: BTreeMap<String, Mark>,
}

// A walk over events.
#[derive(Drop)]
pub(crate) struct Walk {
    alloc: Global,
    levels: Vec<Level>,
    anchors: Vec<String>,
    documents: u64,
    findings: Findings,
}

// What a scalar is as a key: keys that are the same have the same text.
fn key_text(alloc: Global, scalar: &Scalar<'_>) -> Result<String, AllocError> {
    let text = String::from_utf8_lossy(alloc, scalar.value.as_slice())?;
    let text = text.as_str();
    if scalar.tag.is_some() || scalar.style != ScalarStyle::Plain {
        return format!(in alloc; "text {text}");
    }
    match resolve(text) {
        Kind::Null => String::from_str(alloc, "null"),
        Kind::Bool(truth) => format!(in alloc; "boolean {truth}"),
        Kind::Unsigned(n) => format!(in alloc; "integer {n}"),
        Kind::Signed(n) => format!(in alloc; "integer {n}"),
        Kind::Float => format!(in alloc; "float {text}"),
        Kind::Str => format!(in alloc; "text {text}"),
    }
}

impl Walk {
    pub(crate) fn new(alloc: Global) -> Walk {
        Walk {
            alloc,
            levels: Vec::new(alloc),
            anchors: Vec::new(alloc),
            documents: 0,
            findings: Findings {
                repeated: Vec::new(alloc),
                unanchored: Vec::new(alloc),
                second: None,
                fault: None,
            },
        }
    }

    pub(crate) fn finish(self, fault: Option<Fault>) -> Findings {
        let Walk { findings, .. } = self;
        Findings { fault, ..findings }
    }

    // Passes an event.
    pub(crate) fn pass(&mut self, event: &Event<'_>, mark: Mark) -> Result<(), AllocError> {
        match event {
            Event::DocumentStart => self.begin_document(mark),
            Event::Alias(anchor) => self.pass_alias(anchor, mark),
            Event::Scalar(scalar) => self.pass_scalar(scalar, mark),
            Event::SequenceStart(start) => self.open(&start.anchor, mark, false),
            Event::MappingStart(start) => self.open(&start.anchor, mark, true),
            Event::SequenceEnd | Event::MappingEnd => {
                self.levels.pop();
                Ok(())
            }
            Event::StreamStart | Event::StreamEnd | Event::DocumentEnd => Ok(()),
        }
    }

    fn begin_document(&mut self, mark: Mark) -> Result<(), AllocError> {
        if self.documents == 1 {
            self.findings.second = Some(mark);
        }
        self.documents = self.documents.saturating_add(1);
        self.anchors.clear();
        Ok(())
    }

    fn pass_alias(&mut self, anchor: &Anchor, mark: Mark) -> Result<(), AllocError> {
        self.turn();
        let name = String::from_utf8_lossy(self.alloc, anchor.as_slice())?;
        if self
            .anchors
            .iter()
            .any(|known| known.as_str() == name.as_str())
        {
            return Ok(());
        }
        let nearest = nearest(self.alloc, name.as_str(), self.anchors.as_slice())?;
        self.findings.unanchored.push(Unanchored {
            mark,
            name,
            nearest,
        })?;
        Ok(())
    }

    fn pass_scalar(&mut self, scalar: &Scalar<'_>, mark: Mark) -> Result<(), AllocError> {
        self.keep_anchor(&scalar.anchor)?;
        if self.stands_at_key() {
            self.pass_key(scalar, mark)?;
        }
        self.turn();
        Ok(())
    }

    fn stands_at_key(&self) -> bool {
        match self.levels.last() {
            Some(level) => level.is_mapping && level.is_key,
            None => false,
        }
    }

    // Keeps a key of the innermost mapping, or finds that it stands twice.
    fn pass_key(&mut self, scalar: &Scalar<'_>, mark: Mark) -> Result<(), AllocError> {
        let text = key_text(self.alloc, scalar)?;
        let Some(level) = self.levels.last_mut() else {
            return Ok(());
        };
        match level.keys.get(text.as_str()) {
            Some(first) => {
                let key = String::from_utf8_lossy(self.alloc, scalar.value.as_slice())?;
                self.findings.repeated.push(Repeated {
                    mapping: level.mark,
                    key,
                    first: *first,
                    second: mark,
                })?;
            }
            None => {
                level.keys.insert(text, mark)?;
            }
        }
        Ok(())
    }

    // What follows a key is its value, and what follows a value is a key.
    fn turn(&mut self) {
        if let Some(level) = self.levels.last_mut() {
            level.is_key = !level.is_key;
        }
    }

    fn keep_anchor(&mut self, anchor: &Option<Anchor>) -> Result<(), AllocError> {
        if let Some(anchor) = anchor {
            let name = String::from_utf8_lossy(self.alloc, anchor.as_slice())?;
            self.anchors.push(name)?;
        }
        Ok(())
    }

    fn open(
        &mut self,
        anchor: &Option<Anchor>,
        mark: Mark,
        is_mapping: bool,
    ) -> Result<(), AllocError> {
        self.turn();
        self.keep_anchor(anchor)?;
        self.levels.push(Level {
            mark,
            is_mapping,
            is_key: true,
            keys: BTreeMap::new(self.alloc),
        })?;
        Ok(())
    }
}
