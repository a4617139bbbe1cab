//! YAML text to a tape of events directly, without tokens: for the part of YAML that nearly all texts keep to.
//!
//! A text is read by recursive descent, a document at a time. A leaf is found before it is added, so that the mapping
//! that it may be a key of begins first. What this parser does not read it leaves: it then answers
//! [`Step::Elsewhere`], with the tape cut back to where that document began, and the text is for the scanner and the
//! parser that read all of YAML and know its faults. What is read of a whole text that has only characters of
//! `yaml_grammar` are the documents that stand in it ([`parse`]: `stands`). Where such a text of under 4 GiB is left,
//! no documents stand in it (`left`). Of a text with a carriage return or U+FEFF nothing is said. It leaves
//!
//! - texts with a fault, whichever it is;
//! - texts with a byte that is not allowed, that are not UTF-8, or of 4 GiB or more;
//! - line breaks but a line feed and a carriage return with a line feed: a carriage return alone, U+0085, U+2028 and
//!   U+2029;
//! - U+FEFF but at the head of the text;
//! - tabs that part tokens, or that stand amid plain text;
//! - `%TAG` and directives that it does not know;
//! - collections between brackets as keys of pairs within `[ ]`;
//! - `? ` within brackets, and entries without a key;
//! - more than 128 open collections, and a tag with `%00`;
//! - a document without `---` behind `...`.
#![tactic(auto)]

mod block;
mod block_scalar;
mod byte;
mod collection;
mod column;
mod document;
mod escape;
mod flow;
mod flow_leaf;
mod gap;
mod header;
mod key;
mod leaf;
mod named;
mod place;
mod plain;
mod properties;
mod push;
mod quote;
mod quoted;
mod reader;
mod stream;
mod tag;
mod text;
mod whole;

pub use document::{Documents, Step};
pub use whole::parse;
