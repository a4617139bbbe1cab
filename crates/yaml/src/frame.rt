//! Where a reading stands, and the collections around it.

/// What is open around the place of a reading.
#[derive(Clone, Copy, Drop)]
pub(crate) enum Kind {
    /// A sequence, of elements.
    Items,
    /// A mapping, of keys with values.
    Entries,
    /// A sequence or a mapping of nothing, which stands as a scalar without a text, or not at all.
    Empty,
    /// A variant that the node's tag names, around the node.
    Tag,
    /// A variant that the node's text names, behind the node.
    Named,
}

/// Something open.
#[derive(Clone, Copy, Drop)]
pub(crate) struct Frame {
    pub(crate) kind: Kind,
    /// The place of the node's first event.
    pub(crate) start: usize,
    /// The place of the node in what is around it: that of an alias, where one stands for the node.
    pub(crate) at: usize,
    /// The place behind the node, in what is around it.
    pub(crate) back: usize,
    /// How many frames there are up to the one around this one, and with it.
    pub(crate) outer: usize,
}

/// The part of a collection that comes next, as faults name it.
#[derive(Clone, Copy, Drop)]
pub(crate) struct Part {
    /// The place where the collection begins.
    pub(crate) start: usize,
    /// The place where the part begins.
    pub(crate) place: usize,
    /// The place where the one before it begins; that of the collection, where none is.
    pub(crate) before: usize,
    /// How many come before it. Keys and values of a mapping count each.
    pub(crate) count: usize,
}

impl Part {
    /// The first part of the collection that begins in a place.
    pub(crate) fn first(start: usize) -> Part {
        Part {
            start,
            place: start.saturating_add(1),
            before: start,
            count: 0,
        }
    }
}

/// Where a reading stands.
#[derive(Clone, Copy, Drop)]
pub(crate) struct Spot {
    /// The place of the next event.
    pub(crate) place: usize,
    /// How many frames there are up to the innermost open one, and with it.
    pub(crate) top: usize,
    /// How many collections may still lie one within the other.
    pub(crate) nestings: u8,
    /// Whether the next node's tag is taken: it named a variant.
    pub(crate) taken: bool,
    /// Whether a map was begun of which no key was asked: of a mapping, or of a variant.
    pub(crate) begun: bool,
}

/// A place to come back to.
#[derive(Clone, Copy, Drop)]
pub(crate) struct Mark {
    pub(crate) spot: Spot,
    /// How many marks were held before it.
    pub(crate) below: usize,
}

/// What the last step did, as faults tell it.
#[derive(Clone, Copy, Drop)]
pub(crate) enum Deed {
    /// It read a number with a sign.
    Signed(i64),
    /// It read a number without a sign.
    Unsigned(u64),
    /// It found no unit.
    NoUnit,
    /// It read the node's text as a name.
    Named,
    /// It read the node's tag as a name.
    Tagged,
    /// It took the node's tag for a value of any kind, which asks for its name next.
    TagAsked,
    /// It looked at a node with a local tag.
    SawTag,
    /// It came to the end of the collection.
    Ended,
    /// It found an element.
    Item,
    /// It went back to a mark.
    WentBack,
    /// Anything else.
    Read,
}

/// The last step, and its node.
#[derive(Clone, Copy, Drop)]
pub(crate) struct Last {
    pub(crate) deed: Deed,
    /// The place of the node's first event.
    pub(crate) start: usize,
    /// The place of the node in what is around it.
    pub(crate) at: usize,
    /// How many frames there were around the node.
    pub(crate) top: usize,
}

/// A name that was looked for and not found.
#[derive(Drop)]
pub(crate) struct Stranger {
    /// The step that read it.
    pub(crate) last: Last,
    /// The names among which it was looked for, one behind the other.
    pub(crate) known: String,
    /// Where each of them ends.
    pub(crate) ends: Vec<usize>,
}
