//! What a fault says, without where it is.

ghost use Rattle.std.specs.Prelude.{Some};
ghost use Rattle.yaml_base.specs.CauseText.{known_text, message_text};

use crate::error::Cause;
use crate::words::Words;
use std::fmt;

// The names to choose from, which are variants or fields.
#[derive(Drop)]
struct KnownNames<'a>(&'a [Words], &'static str);

impl fmt::Display for KnownNames<'_> {
    ghost output = { λ names. Some (known_text names.1.now names.0.now) };

    fn fmt<W: fmt::Write>(&self, f: &mut fmt::Formatter<W>) -> fmt::Result {
        let kinds = self.1;
        match self.0 {
            [] => write!(f, "there are no {kinds}"),
            [one] => write!(f, "expected `{one}`"),
            [one, other] => write!(f, "expected `{one}` or `{other}`"),
            [first, others @ ..] => {
                write!(f, "expected one of `{first}`")?;
                for name in others {
                    write!(f, ", `{name}`")?;
                }
                Ok(())
            }
        }
    }
}

impl fmt::Display for Cause {
    ghost output = { λ cause. Some (message_text cause) };

    fn fmt<W: fmt::Write>(&self, f: &mut fmt::Formatter<W>) -> fmt::Result {
        match self {
            Cause::Memory => f.write_str("out of memory"),
            Cause::NotAStream(n) => write!(f, "event list is not a stream at event {n}"),
            Cause::EndOfStream => f.write_str("EOF while parsing a value"),
            Cause::MoreThanOneDocument => {
                f.write_str(
                    "deserializing from YAML containing more than one document is not supported",
                )
            }
            Cause::RecursionLimitExceeded(_) => f.write_str("recursion limit exceeded"),
            Cause::RepetitionLimitExceeded => f.write_str("repetition limit exceeded"),
            Cause::BytesUnsupported => {
                f.write_str("serialization and deserialization of bytes in YAML is not implemented")
            }
            Cause::UnknownAnchor(_) => f.write_str("unknown anchor"),
            Cause::SerializeNestedEnum => f.write_str(
                "serializing nested enums in YAML is not supported yet",
            ),
            Cause::Parser(fault) => write!(f, "{fault}"),
            Cause::InvalidType {
                found,
                expected,
                ..
            } => write!(f, "invalid type: {found}, expected {expected}"),
            Cause::InvalidValue {
                found,
                expected,
                ..
            } => write!(f, "invalid value: {found}, expected {expected}"),
            Cause::InvalidLength {
                length,
                expected,
                ..
            } => write!(f, "invalid length {length}, expected {expected}"),
            Cause::UnknownVariant { variant, known, .. } => {
                let names = KnownNames(known.as_slice(), "variants");
                write!(f, "unknown variant `{variant}`, {names}")
            }
            Cause::UnknownField { name, known, .. } => {
                let names = KnownNames(known.as_slice(), "fields");
                write!(f, "unknown field `{name}`, {names}")
            }
            Cause::MissingField { name, .. } => write!(f, "missing field `{name}`"),
            Cause::DuplicateField { name, .. } => write!(f, "duplicate field `{name}`"),
            Cause::DuplicateEntry { key, .. } => write!(f, "duplicate entry {key}"),
            Cause::NestedEnum { name, tag, .. } => {
                write!(
                    f,
                    "deserializing nested enum in {name}::{tag} from YAML is not supported yet"
                )
            }
            Cause::FloatUnsupported { text, .. } => write!(
                f,
                "floating point `{text}` is not supported"
            ),
            Cause::Custom { text, .. } => f.write_str(text.as_str()),
            Cause::ScalarInMerge => {
                f.write_str("expected a mapping or list of mappings for merging, but found scalar")
            }
            Cause::TaggedInMerge => f.write_str("unexpected tagged value in merge"),
            Cause::ScalarInMergeElement => f.write_str(
                "expected a mapping for merging, but found scalar",
            ),
            Cause::SequenceInMergeElement => f.write_str(
                "expected a mapping for merging, but found sequence",
            ),
            Cause::EmptyTag => f.write_str("empty YAML tag is not allowed"),
            Cause::FailedToParseNumber => f.write_str("failed to parse YAML number"),
        }
    }
}
