//! Nodes that are written one behind another.

ghost use Rattle.std.specs.Prelude.{◌≡◌, ◌∷◌, [], Ok, IfErr, OnErr};
ghost use Rattle.std.specs.Char.{encode_utf8};
ghost use Rattle.yaml_base.specs.EmitEvents.{emit_of, tag_bytes, emit_sequence_start, emit_sequence_end};
ghost use Rattle.yaml_base.specs.EmitEvents.{emit_mapping_start, emit_mapping_end};
ghost use Rattle.yaml_base.specs.EmitEvents.{emit_stream_start, emit_stream_end, emit_document_start};
ghost use Rattle.yaml_base.specs.EmitEvents.{emit_document_end};
ghost use Rattle.yaml_base.specs.EmitTree.{emit_node_events, emit_scalar_node};
ghost use Rattle.yaml_base.specs.declared.error.Cause.TheVariants.{Memory};
ghost use Rattle.yaml_shape.specs.DataView.{data_of};
ghost use Rattle.yaml_tree.specs.View.{tree_of};
ghost use Rattle.yaml_write.specs.Adds.{Adds};
ghost use Rattle.yaml_write.specs.Brackets.{start_by, end_by};
ghost use Rattle.yaml_write.specs.Outcomes.{is_number_text, null_node, number_node, plain_node, string_node};
ghost use Rattle.yaml_write.specs.Written.{written};
ghost use Rattle.yaml_write.specs.WrittenValue.{written_value, truth_text};

use crate::data::write_data;
use crate::value::{write_bool, write_value};
use crate::write_refusal::Result;
use itoa::Integer;
use std::alloc::Global;
use std::marker::Model;
use yaml_base::emitter::{AskedStyle, EmitEvent, Mapping, Sequence};
use yaml_base::{Kind, infer_style, resolve};
use yaml_emit::EventSink;
use yaml_shape::{Data, Schema, ShapeId};
use yaml_tree::Value;

// Whether the text is an integer's or a float's.
fn is_number_text(text: &str) -> bool
    ensures { result ≡ is_number_text text.now }
{
    matches!(
        resolve(text),
        Kind::Unsigned(_) | Kind::Signed(_) | Kind::Float
    )
}

/// Writes nodes one behind another as events that a sink takes: a list of them, or an emitter. Contracts see it as the
/// list of the plain events that the sink has taken.
///
/// A type writes its values here. Each call adds what it says behind the events that are there; where it is refused,
/// those are kept: of one event with no others behind them, else perhaps with some.
#[derive(Drop)]
pub struct NodeWriter<S: EventSink> {
    pub(crate) sink: S,
}

impl<S: EventSink> Model for NodeWriter<S> {
    ghost use Rattle.std.specs.Prelude.{List};
    ghost use Rattle.yaml_base.specs.EmitEvents.{PlainEmit};

    ghost Value = { List PlainEmit };

    ghost view = { λ w. S.events w.sink };
}

impl<S: EventSink> NodeWriter<S> {
    /// Writes into the sink, behind what that has taken. Takes no memory.
    pub fn new(sink: S) -> NodeWriter<S>
        ensures { result ≡ S.events sink }
    {
        NodeWriter { sink }
    }

    /// The sink, with what was written.
    pub fn into_sink(self) -> S
        ensures { S.events result ≡ self }
    {
        self.sink
    }

    /// The allocator.
    pub fn alloc(&self) -> Global {
        self.sink.alloc()
    }

    // One event more.
    #[inline(always)]
    pub(crate) fn push(&mut self, event: EmitEvent) -> Result<()>
        ensures added { Adds (λ e. e ∷ []) (Ok (emit_of event)) self.old self.new result }
        ensures err { OnErr result (self.new ≡ self.old) }
    {
        self.sink.take(event)?;
        Ok(())
    }

    // Room for so many events, and for the starts and ends of a stream, a document and a collection around them.
    fn make_room(&mut self, count: usize) -> Result<()>
        ensures same { self.new ≡ self.old }
        ensures memory { IfErr result (λ cause. cause ≡ Memory) }
    {
        self.sink.reserve(count.saturating_add(6))?;
        Ok(())
    }

    // A scalar.
    #[inline(always)]
    pub(crate) fn scalar(
        &mut self,
        tag: Option<String>,
        text: &str,
        style: AskedStyle,
    ) -> Result<()>
        ensures added { Adds emit_node_events (Ok (emit_scalar_node (tag_bytes tag) text.now style))
            self.old self.new result }
        ensures err { OnErr result (self.new ≡ self.old) }
    {
        self.sink.take_scalar(tag, text, style)?;
        Ok(())
    }

    // A scalar that is asked plain.
    #[inline(always)]
    pub(crate) fn plain(&mut self, tag: Option<String>, text: &str) -> Result<()>
        ensures added { Adds emit_node_events (Ok (plain_node (tag_bytes tag) text.now))
            self.old self.new result }
        ensures err { OnErr result (self.new ≡ self.old) }
    {
        self.scalar(tag, text, AskedStyle::Plain)
    }

    /// Null, under a tag, if there is one, as each of the following. The only fault is `Memory`.
    pub fn null(&mut self, tag: Option<String>) -> Result<()>
        ensures added { Adds emit_node_events (Ok (null_node (tag_bytes tag))) self.old self.new result }
        ensures err { OnErr result (self.new ≡ self.old) }
    {
        self.plain(tag, "null")
    }

    /// An integer. The only fault is `Memory`.
    pub fn integer<I: Integer>(&mut self, tag: Option<String>, number: I) -> Result<()>
        ensures added { Adds emit_node_events (Ok (plain_node (tag_bytes tag) (I.text number)))
            self.old self.new result }
        ensures err { OnErr result (self.new ≡ self.old) }
    {
        let mut digits = itoa::Buffer::new();
        self.plain(tag, digits.format(number))
    }

    /// The text of a number, plain. A text that is no number's is written as a string. The only fault is `Memory`.
    pub fn number(&mut self, tag: Option<String>, text: &str) -> Result<()>
        ensures added { Adds emit_node_events (Ok (number_node (tag_bytes tag) text.now))
            self.old self.new result }
        ensures err { OnErr result (self.new ≡ self.old) }
    {
        if is_number_text(text) {
            self.plain(tag, text)
        } else {
            self.string(tag, text)
        }
    }

    /// A string, in the style that it has to be asked in. The only fault is `Memory`.
    pub fn string(&mut self, tag: Option<String>, text: &str) -> Result<()>
        ensures added { Adds emit_node_events (Ok (string_node (tag_bytes tag) text.now))
            self.old self.new result }
        ensures err { OnErr result (self.new ≡ self.old) }
    {
        self.scalar(tag, text, infer_style(text))
    }

    /// A character. The only fault is `Memory`.
    pub fn character(&mut self, tag: Option<String>, letter: char) -> Result<()>
        ensures added { Adds emit_node_events
            (Ok (emit_scalar_node (tag_bytes tag) (encode_utf8 letter) AskedStyle.SingleQuoted))
            self.old self.new result }
        ensures err { OnErr result (self.new ≡ self.old) }
    {
        let mut bytes = [0; 4];
        self.scalar(
            tag,
            letter.encode_utf8(&mut bytes),
            AskedStyle::SingleQuoted,
        )
    }

    /// The start of a sequence, and room for so many elements of one event. The only fault is `Memory`.
    pub fn start_sequence(&mut self, tag: Option<String>, elements: usize) -> Result<()>
        ensures added { Adds (λ e. e ∷ []) (Ok (emit_sequence_start (tag_bytes tag)))
            self.old self.new result }
        ensures err { OnErr result (self.new ≡ self.old) }
    {
        self.make_room(elements)?;
        self.push(EmitEvent::SequenceStart(Sequence { tag }))
    }

    /// The end of a sequence. The only fault is `Memory`.
    pub fn end_sequence(&mut self) -> Result<()>
        ensures added { Adds (λ e. e ∷ []) (Ok emit_sequence_end) self.old self.new result }
        ensures err { OnErr result (self.new ≡ self.old) }
    {
        self.push(EmitEvent::SequenceEnd)
    }

    /// The start of a mapping, and room for so many entries of two events. The only fault is `Memory`.
    pub fn start_mapping(&mut self, tag: Option<String>, entries: usize) -> Result<()>
        ensures added { Adds (λ e. e ∷ []) (Ok (emit_mapping_start (tag_bytes tag)))
            self.old self.new result }
        ensures err { OnErr result (self.new ≡ self.old) }
    {
        self.make_room(entries.saturating_mul(2))?;
        self.push(EmitEvent::MappingStart(Mapping { tag }))
    }

    /// The end of a mapping. The only fault is `Memory`.
    pub fn end_mapping(&mut self) -> Result<()>
        ensures added { Adds (λ e. e ∷ []) (Ok emit_mapping_end) self.old self.new result }
        ensures err { OnErr result (self.new ≡ self.old) }
    {
        self.push(EmitEvent::MappingEnd)
    }

    /// A boolean. The only fault is `Memory`.
    pub fn boolean(&mut self, tag: Option<String>, truth: bool) -> Result<()>
        ensures added { Adds emit_node_events (Ok (plain_node (tag_bytes tag) (truth_text truth)))
            self.old self.new result }
        ensures err { OnErr result (self.new ≡ self.old) }
    {
        write_bool(self, tag, truth)
    }

    /// A value. Refused are a tag upon a tag and want of memory.
    pub fn value(&mut self, tag: Option<String>, value: &Value) -> Result<()>
        ensures { Adds emit_node_events (written_value (tag_bytes tag) (tree_of value.now))
            self.old self.new result }
    {
        write_value(self, tag, value)
    }

    /// Data, as it is written by the shape with this number. Refused are bytes, a tag upon a tag, and want of memory.
    pub fn typed(
        &mut self,
        tag: Option<String>,
        schema: &Schema,
        id: ShapeId,
        content: &Data<'_>,
    ) -> Result<()>
        ensures { Adds emit_node_events
            (written schema.now id.0 (tag_bytes tag) (data_of content.now)) self.old self.new result }
    {
        write_data(self, schema, id, tag, content)
    }

    /// The start of a document. The only fault is `Memory`.
    pub fn start_document(&mut self) -> Result<()>
        ensures added { Adds (λ e. e ∷ []) (Ok emit_document_start) self.old self.new result }
        ensures err { OnErr result (self.new ≡ self.old) }
    {
        self.push(EmitEvent::DocumentStart)
    }

    /// The end of a document. The only fault is `Memory`.
    pub fn end_document(&mut self) -> Result<()>
        ensures added { Adds (λ e. e ∷ []) (Ok emit_document_end) self.old self.new result }
        ensures err { OnErr result (self.new ≡ self.old) }
    {
        self.push(EmitEvent::DocumentEnd)
    }

    /// The start of a stream and of its first document. The only fault is `Memory`.
    pub fn start_stream(&mut self) -> Result<()>
        ensures { Adds (λ es. es) (Ok (emit_stream_start ∷ emit_document_start ∷ []))
            self.old self.new result }
    {
        self.push(EmitEvent::StreamStart)?;
        self.push(EmitEvent::DocumentStart)
    }

    /// The end of a document and of its stream. The only fault is `Memory`.
    pub fn end_stream(&mut self) -> Result<()>
        ensures { Adds (λ es. es) (Ok (emit_document_end ∷ emit_stream_end ∷ []))
            self.old self.new result }
    {
        self.push(EmitEvent::DocumentEnd)?;
        self.push(EmitEvent::StreamEnd)
    }

    // The start of a mapping where parts are keys with values, else of a sequence, and room for so many parts.
    pub(crate) fn start(&mut self, paired: bool, tag: Option<String>, parts: usize) -> Result<()>
        ensures { Adds (λ e. e ∷ []) (Ok (start_by paired (tag_bytes tag)))
            self.old self.new result }
    {
        if paired {
            self.start_mapping(tag, parts)
        } else {
            self.start_sequence(tag, parts)
        }
    }

    // The end of it.
    pub(crate) fn end(&mut self, paired: bool) -> Result<()>
        ensures { Adds (λ e. e ∷ []) (Ok (end_by paired)) self.old self.new result }
    {
        if paired {
            self.end_mapping()
        } else {
            self.end_sequence()
        }
    }
}
