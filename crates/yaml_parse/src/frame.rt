//! What an open collection waits for, and which part of a stream comes next.

ghost use Rattle.std.specs.Prelude.{◌≡◌, true};
ghost use Rattle.yaml_parse.specs.Frames.{ends_mapping, ends_sequence, open_after_node, open_of};

// What an open collection waits for.
#[derive(Clone, Copy)]
pub(crate) enum Frame {
    // `-`, or the end of the sequence.
    BlockEntry,
    // A node, behind `-`.
    BlockNode,
    // `-`, or else the sequence ends.
    IndentlessEntry,
    // A node, behind `-`.
    IndentlessNode,
    // The place of a key, or the end of the mapping.
    BlockKey,
    // A key.
    BlockKeyNode,
    // `:`, or else the value is empty.
    BlockValue,
    // A value, behind `:`.
    BlockValueNode,
    // A node, a pair, or the end of the sequence.
    FlowNode,
    // `,`, or the end of the sequence.
    FlowEntry,
    // The key of a pair.
    PairKey,
    // `:`, or else the value is empty.
    PairValue,
    // The value of a pair, behind `:`.
    PairValueNode,
    // Nothing more: the pair ends.
    PairEnd,
    // A key, or the end of the mapping.
    MapKey,
    // A key, behind `?` or before `:`.
    MapKeyNode,
    // `:`, or else the value is empty.
    MapValue,
    // A value, behind `:`.
    MapValueNode,
    // An empty value.
    MapNoValue,
    // `,`, or the end of the mapping.
    MapEntry,
}

// The part of a stream that comes next.
#[derive(Clone, Copy)]
pub(crate) enum Phase {
    // The start of the stream.
    Before,
    // A document, or the end of the stream.
    First,
    // A document that is marked by `---`, or the end of the stream.
    Next,
    // More directives, or `---`.
    Directives,
    // The node of a document without `---`.
    Root,
    // The node of a document behind `---`.
    Content,
    // More of the innermost open collection.
    Within(Frame),
    // The end of the document.
    Ended,
    // Nothing more.
    After,
}

// What a collection waits for behind a node.
pub(crate) fn behind(frame: Frame) -> Frame
    ensures { open_of result ≡ open_after_node (open_of frame) }
{
    match frame {
        Frame::BlockEntry | Frame::BlockNode => Frame::BlockEntry,
        Frame::IndentlessEntry | Frame::IndentlessNode => Frame::IndentlessEntry,
        Frame::BlockKey | Frame::BlockKeyNode => Frame::BlockValue,
        Frame::BlockValue | Frame::BlockValueNode => Frame::BlockKey,
        Frame::FlowNode | Frame::FlowEntry => Frame::FlowEntry,
        Frame::PairKey => Frame::PairValue,
        Frame::PairValue | Frame::PairValueNode => Frame::PairEnd,
        Frame::PairEnd => Frame::PairValue,
        Frame::MapKey => Frame::MapNoValue,
        Frame::MapKeyNode | Frame::MapEntry => Frame::MapValue,
        Frame::MapValue | Frame::MapValueNode | Frame::MapNoValue => Frame::MapEntry,
    }
}

// Whether a sequence may end.
pub(crate) fn is_sequence(frame: Frame) -> bool
    ensures { result ≡ ends_sequence (open_of frame) }
{
    matches!(
        frame,
        Frame::BlockEntry
            | Frame::BlockNode
            | Frame::IndentlessEntry
            | Frame::IndentlessNode
            | Frame::FlowNode
            | Frame::FlowEntry
    )
}

// Whether a mapping may end.
pub(crate) fn is_key(frame: Frame) -> bool
    ensures { result ≡ ends_mapping (open_of frame) }
{
    matches!(
        frame,
        Frame::BlockKey
            | Frame::BlockKeyNode
            | Frame::PairKey
            | Frame::PairEnd
            | Frame::MapKey
            | Frame::MapKeyNode
            | Frame::MapEntry
    )
}

// Whether both wait for the same.
pub(crate) fn is_same(one: Frame, other: Frame) -> bool
    ensures { result ≡ true → open_of one ≡ open_of other }
{
    if is_sequence(one) {
        is_sequence(other)
    } else if is_key(one) {
        is_key(other)
    } else {
        !is_sequence(other) && !is_key(other)
    }
}
