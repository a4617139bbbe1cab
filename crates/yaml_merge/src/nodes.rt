//! The nodes of a document by the places of their first events.

ghost use Rattle.std.specs.Prelude.{◌≡◌, length, slice_get};
ghost use Rattle.std.specs.Option.{option_map};
ghost use Rattle.yaml_base.specs.DocEventView.{doc_event_of, doc_scalar_of, marked_events_of};
ghost use Rattle.yaml_base.specs.PlainDocEvent.{a_scalar};
ghost use Rattle.yaml_merge.specs.MergeKeys.{is_merge_node, is_merge_tag, is_merge_word, is_merge_word_at, is_plain};
ghost use Rattle.yaml_merge.specs.Writing.{behind_at, end_at, event_at, is_merge_key_at, target_at};

use yaml_base::{DocEvent, DocScalar, Mark, ScalarStyle, Tag};

// The events of a document, beside which stand the places where collections end.
#[derive(Clone, Copy)]
pub(crate) struct Nodes<'a, 'de> {
    pub(crate) events: &'a [(DocEvent<'de>, Mark)],
    pub(crate) ends: &'a [usize],
}

// Whether a merge key may have this tag, or none.
fn is_merge_tag(tag: &Option<Tag>) -> bool
    ensures { result ≡ is_merge_tag tag.now }
{
    match tag {
        Some(tag) => tag.is("tag:yaml.org,2002:merge"),
        None => true,
    }
}

// Whether a scalar stands without quotes.
fn is_plain(style: ScalarStyle) -> bool
    ensures { result ≡ is_plain style }
{
    match style {
        ScalarStyle::Plain => true,
        _ => false,
    }
}

// Whether a scalar is the word of a merge key: a plain `<<`.
fn is_merge_scalar(scalar: &DocScalar<'_>) -> bool
    ensures { result ≡ is_merge_word (a_scalar (doc_scalar_of scalar.now)) }
{
    match scalar.value.as_slice() {
        b"<<" => is_merge_tag(&scalar.tag) && is_plain(scalar.style),
        _ => false,
    }
}

// Whether an event is such a scalar.
pub(crate) fn is_merge_word(event: &DocEvent<'_>) -> bool
    ensures { result ≡ is_merge_word (doc_event_of event.now) }
{
    match event {
        DocEvent::Scalar(scalar) => is_merge_scalar(scalar),
        _ => false,
    }
}

impl<'a, 'de> Nodes<'a, 'de> {
    // How many events there are.
    pub(crate) fn len(&self) -> usize
        ensures { result ≡ length self.now.events.now }
    {
        self.events.len()
    }

    // The event in a place.
    pub(crate) fn event(&self, place: usize) -> Option<&'a DocEvent<'de>>
        ensures { option_map (λ e. doc_event_of e.now) result
            ≡ event_at (marked_events_of self.now.events.now) place }
    {
        match self.events.get(place) {
            Some((event, _)) => Some(event),
            None => None,
        }
    }

    // Its mark.
    pub(crate) fn mark(&self, place: usize) -> Option<Mark>
        ensures { result ≡ option_map (λ e. e.1) (slice_get (marked_events_of self.now.events.now) place) }
    {
        match self.events.get(place) {
            Some((_, mark)) => Some(*mark),
            None => None,
        }
    }

    // The place of the node that the one in a place is, or that it stands for as an alias.
    pub(crate) fn target(&self, place: usize) -> usize
        ensures { result ≡ target_at (marked_events_of self.now.events.now) place }
    {
        match self.event(place) {
            Some(DocEvent::Alias(target)) => *target,
            _ => place,
        }
    }

    // Where the collection ends that begins in a place; for any other event its place.
    pub(crate) fn end(&self, place: usize) -> usize
        ensures { result ≡ end_at self.now.ends.now place }
    {
        match self.ends.get(place) {
            Some(end) => *end,
            None => place,
        }
    }

    // The place behind the node that begins in a place, without following an alias.
    pub(crate) fn behind(&self, place: usize) -> usize
        ensures { result ≡ behind_at self.now.ends.now place }
    {
        self.end(place).saturating_add(1)
    }

    // Whether the event in a place is the word of a merge key.
    fn is_merge_word_at(&self, place: usize) -> bool
        ensures { result ≡ is_merge_word_at (marked_events_of self.now.events.now) place }
    {
        match self.event(place) {
            Some(event) => is_merge_word(event),
            None => false,
        }
    }

    // Whether the node that begins with this event is such a word, or stands for one.
    pub(crate) fn is_merge_node(&self, event: &DocEvent<'_>) -> bool
        ensures { result ≡ is_merge_node (marked_events_of self.now.events.now) (doc_event_of event.now) }
    {
        match event {
            DocEvent::Alias(target) => self.is_merge_word_at(*target),
            _ => is_merge_word(event),
        }
    }

    // Whether the node in a place is one.
    pub(crate) fn is_merge_key(&self, place: usize) -> bool
        ensures { result ≡ is_merge_key_at (marked_events_of self.now.events.now) place }
    {
        match self.event(place) {
            Some(event) => self.is_merge_node(event),
            None => false,
        }
    }

    // The tag of the node that begins in a place.
    pub(crate) fn tag(&self, place: usize) -> Option<&'a Tag> {
        match self.event(place)? {
            DocEvent::Scalar(scalar) => scalar.tag.as_ref(),
            DocEvent::SequenceStart(start) | DocEvent::MappingStart(start) => start.tag.as_ref(),
            _ => None,
        }
    }
}
