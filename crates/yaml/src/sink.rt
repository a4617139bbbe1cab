//! What a value of a type with derives is written to.

ghost use Rattle.std.specs.Prelude.{◌≡◌, ◌+◌, map, IfOk};
ghost use Rattle.yaml.specs.WrittenDocument.{IsWrittenDocument};
ghost use Rattle.yaml_base.specs.EmitEvents.{emit_of};
ghost use Rattle.yaml_base.specs.EmitTree.{IsEmitStream};

use crate::event_list::EventList;
use crate::printer::Printer;
use crate::target::{Scalar, Target};
use crate::told::{NOT_ONE, UNENDED, told};
use ryu::Buffer;
use serde::{Case, NameKind};
use std::alloc::Global;
use std::fmt::Display;
use yaml_base::emitter::EmitEvent;
use yaml_base::{Cause, Error, Result};
use yaml_float::{print_f32, print_f64};

// What is open, as the type that is written sees it.
#[derive(Clone, Copy, PartialEq, Eq)]
enum Level {
    // A sequence or a mapping.
    Collection,
    // A variant around its content: nothing but a tag is written.
    Variant,
    // Members of the mapping around it.
    Shared,
}

/// Takes what a value sends, and hands nodes on to a target.
#[derive(Drop)]
pub(crate) struct Sink<T: Target> {
    target: T,
    levels: Vec<Level>,
    // Whether a map of one pair was begun, of which it is not known whether it is a variant.
    is_held: bool,
    // The variant whose content comes.
    tag: Option<String>,
    // Whether the next map's members go into the mapping that is open.
    is_shared: bool,
}

// The name without one leading `!` that has something behind it.
fn unbanged(name: &str) -> &str {
    match name.strip_prefix('!') {
        Some(rest) if !rest.is_empty() => rest,
        _ => name,
    }
}

impl Sink<EventList> {
    /// All events, with the end of the stream behind them, where they are one document.
    pub(crate) fn into_events(self) -> Result<Vec<EmitEvent>>
        ensures stream { IfOk result (λ events. IsEmitStream (map emit_of events.items)) }
        ensures one { IfOk result (λ events. IsWrittenDocument (map emit_of events.items)) }
    {
        let list = self.target;
        if self.is_held || self.tag.is_some() {
            return Err(told(list.alloc(), UNENDED));
        }
        list.into_events()
    }
}

impl Sink<Printer> {
    /// The printer, where it has printed one document behind so many.
    pub(crate) fn into_printer(self, before: usize) -> Result<Printer>
        ensures { IfOk result (λ printer. printer.begun ≡ before + 1) }
    {
        let printer = self.target;
        if printer.is_open() || self.is_held || self.tag.is_some() {
            return Err(told(printer.alloc(), UNENDED));
        }
        if printer.begun <= before || printer.begun - before > 1 {
            return Err(told(printer.alloc(), NOT_ONE));
        }
        Ok(printer)
    }
}

impl<T: Target> Sink<T> {
    /// One that has sent the target nothing. Takes no memory.
    pub(crate) fn new(target: T) -> Sink<T> {
        let levels = Vec::new(target.alloc());
        Sink {
            target,
            levels,
            is_held: false,
            tag: None,
            is_shared: false,
        }
    }

    fn told(&self, message: &str) -> Error {
        told(self.target.alloc(), message)
    }

    // The name in its case.
    fn spelled(&self, kind: NameKind, name: &str, case: Case) -> Result<String> {
        let mut text = String::new(self.target.alloc());
        case.append(kind, name, &mut text)?;
        Ok(text)
    }

    // The name in its case, as a scalar.
    fn name(&mut self, kind: NameKind, name: &str, case: Case) -> Result<()> {
        if case == Case::AsIs {
            return self.scalar(Scalar::Str(name));
        }
        let text = self.spelled(kind, name, case)?;
        self.scalar(Scalar::Str(text.as_str()))
    }

    // A map that was held back is a mapping.
    fn settle(&mut self) -> Result<()> {
        if self.is_held {
            self.is_held = false;
            return self.open_map();
        }
        Ok(())
    }

    fn open_map(&mut self) -> Result<()> {
        self.levels.push(Level::Collection)?;
        self.target.open_mapping(self.tag.take())
    }

    fn open_seq(&mut self) -> Result<()> {
        self.levels.push(Level::Collection)?;
        self.target.open_sequence(self.tag.take())
    }

    // Ends the innermost collection.
    fn close(&mut self) -> Result<()> {
        let ended = match self.levels.pop() {
            Some(Level::Collection) => self.target.close()?,
            Some(Level::Variant) => self.tag.is_none(),
            Some(Level::Shared) => true,
            None => false,
        };
        if ended {
            return Ok(());
        }
        Err(self.told("a value ended something too soon"))
    }

    // A scalar, under a tag if one is held back.
    fn scalar(&mut self, scalar: Scalar<'_>) -> Result<()> {
        self.settle()?;
        if self.is_shared {
            return Err(self.told("only structs and maps can be flattened"));
        }
        match self.tag.take() {
            Some(tag) => self.target.variant_scalar(tag.as_str(), scalar),
            None => self.target.scalar(scalar),
        }
    }
}

impl<T: Target> serde::Serializer for Sink<T> {
    type Error = Error;

    fn bool(&mut self, v: bool) -> Result<()> {
        self.scalar(Scalar::Bool(v))
    }

    fn i64(&mut self, v: i64) -> Result<()> {
        self.scalar(Scalar::Signed(v))
    }

    fn u64(&mut self, v: u64) -> Result<()> {
        self.scalar(Scalar::Unsigned(v))
    }

    fn i128(&mut self, v: i128) -> Result<()> {
        self.scalar(Scalar::LongSigned(v))
    }

    fn u128(&mut self, v: u128) -> Result<()> {
        self.scalar(Scalar::LongUnsigned(v))
    }

    fn f32(&mut self, v: f32) -> Result<()> {
        self.scalar(Scalar::Number(print_f32(&mut Buffer::new(), v)))
    }

    fn f64(&mut self, v: f64) -> Result<()> {
        self.scalar(Scalar::Number(print_f64(&mut Buffer::new(), v)))
    }

    fn char(&mut self, v: char) -> Result<()> {
        self.scalar(Scalar::Char(v))
    }

    fn str(&mut self, v: &str) -> Result<()> {
        self.scalar(Scalar::Str(v))
    }

    fn bytes(&mut self, _v: &[u8]) -> Result<()> {
        Err(Error::new(Cause::BytesUnsupported))
    }

    fn unit(&mut self) -> Result<()> {
        if self.is_shared {
            self.is_shared = false;
            return Ok(());
        }
        self.scalar(Scalar::Null)
    }

    fn str_cased(&mut self, name: &str, case: Case) -> Result<()> {
        self.name(NameKind::Variant, name, case)
    }

    fn begin_seq(&mut self, _len: Option<usize>) -> Result<()> {
        self.settle()?;
        if self.is_shared {
            return Err(self.told("only structs and maps can be flattened"));
        }
        self.open_seq()
    }

    fn end_seq(&mut self) -> Result<()> {
        self.settle()?;
        self.close()
    }

    fn begin_map(&mut self, len: Option<usize>) -> Result<()> {
        self.settle()?;
        if self.is_shared {
            self.is_shared = false;
            return Ok(self.levels.push(Level::Shared)?);
        }
        if len == Some(1) {
            self.is_held = true;
            return Ok(());
        }
        self.open_map()
    }

    fn end_map(&mut self) -> Result<()> {
        self.settle()?;
        self.close()
    }

    fn key_cased(&mut self, name: &str, case: Case) -> Result<()> {
        self.name(NameKind::Field, name, case)
    }

    fn variant_key(&mut self, name: &str, case: Case) -> Result<()> {
        if !self.is_held {
            return self.name(NameKind::Variant, name, case);
        }
        if self.tag.is_some() {
            return Err(Error::new(Cause::SerializeNestedEnum));
        }
        let text = self.spelled(NameKind::Variant, unbanged(name), case)?;
        self.levels.push(Level::Variant)?;
        self.is_held = false;
        self.tag = Some(text);
        Ok(())
    }

    fn begin_key(&mut self) -> Result<()> {
        self.settle()
    }

    fn end_key(&mut self) -> Result<()> {
        Ok(())
    }

    fn flatten_next(&mut self) -> Result<()> {
        self.settle()?;
        self.is_shared = true;
        Ok(())
    }

    fn custom(&self, message: &str) -> Error {
        self.told(message)
    }

    fn collect_str<V: Display>(&mut self, value: &V) -> Result<()> {
        let text = value.to_string(self.target.alloc())?;
        self.scalar(Scalar::Str(text.as_str()))
    }
}
