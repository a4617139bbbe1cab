//! Whether events say the same.

ghost use Rattle.std.specs.Prelude.{◌≡◌, ◌↔◌, IsTrue, IfNone, None, true};
ghost use Rattle.std.specs.Option.{option_map};
ghost use Rattle.yaml_base.specs.PlainEvent.{event_of, scalar_of};
ghost use Rattle.yaml_layout.specs.Said.{said, said_by, said_by_scalar};

use yaml_base::{Anchor, Event, Mark, Scalar, Tag};

// Whether both anchors are the same, or none is there.
fn is_same_anchor(one: &Option<Anchor>, other: &Option<Anchor>) -> bool
    ensures { IsTrue result → one.now ≡ other.now }
{
    match one {
        Some(anchor) => match other {
            Some(name) => anchor.as_slice() == name.as_slice(),
            None => false,
        },
        None => other.is_none(),
    }
}

// Whether both tags are the same, or none is there.
fn is_same_tag(one: &Option<Tag>, other: &Option<Tag>) -> bool
    ensures { IsTrue result → one.now ≡ other.now }
{
    match one {
        Some(tag) => match other {
            Some(name) => tag.as_slice() == name.as_slice(),
            None => false,
        },
        None => other.is_none(),
    }
}

// Whether both scalars say the same in the same way.
fn is_same_scalar(one: &Scalar<'_>, other: &Scalar<'_>) -> bool
    ensures { IsTrue result → said_by_scalar (scalar_of one.now) ≡ said_by_scalar (scalar_of other.now) }
{
    let named = is_same_anchor(&one.anchor, &other.anchor) && is_same_tag(&one.tag, &other.tag);
    named && one.style == other.style && one.value.as_slice() == other.value.as_slice()
}

// Whether both events say the same.
fn is_same(one: &Event<'_>, other: &Event<'_>) -> bool
    ensures { IsTrue result → said_by (event_of one.now) ≡ said_by (event_of other.now) }
{
    match one {
        Event::StreamStart => matches!(other, Event::StreamStart),
        Event::StreamEnd => matches!(other, Event::StreamEnd),
        Event::DocumentStart => matches!(other, Event::DocumentStart),
        Event::DocumentEnd => matches!(other, Event::DocumentEnd),
        Event::SequenceEnd => matches!(other, Event::SequenceEnd),
        Event::MappingEnd => matches!(other, Event::MappingEnd),
        Event::Alias(anchor) => match other {
            Event::Alias(name) => anchor.as_slice() == name.as_slice(),
            _ => false,
        },
        Event::Scalar(scalar) => match other {
            Event::Scalar(second) => is_same_scalar(scalar, second),
            _ => false,
        },
        Event::SequenceStart(start) => match other {
            Event::SequenceStart(second) => {
                is_same_anchor(&start.anchor, &second.anchor)
                    && is_same_tag(&start.tag, &second.tag)
            }
            _ => false,
        },
        Event::MappingStart(start) => match other {
            Event::MappingStart(second) => {
                is_same_anchor(&start.anchor, &second.anchor)
                    && is_same_tag(&start.tag, &second.tag)
            }
            _ => false,
        },
    }
}

/// How many events at the beginning of both lists say the same; none is given where all do, and neither list is longer.
pub(crate) fn difference(
    events: &[(Event<'_>, Mark)],
    others: &[(Event<'_>, Mark)],
) -> Option<usize>
    ensures { IfNone result (said events.now ≡ said others.now) }
{
    for i in 0..events.len() {
        if i >= others.len() || !is_same(&events[i].0, &others[i].0) {
            return Some(i);
        }
    }
    if events.len() == others.len() {
        None
    } else {
        Some(events.len())
    }
}
