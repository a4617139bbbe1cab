//! Leaves: aliases, plain text and quotes, each as far as it stands in one line. A leaf is found before it is added,
//! since one that is a key begins a mapping first.
#![tactic(auto, using(crate::proofs::Growing::grows_on, crate::proofs::Growing::grows_same))]

ghost use Rattle.std.specs.Prelude.{◌≡◌, ◌≢◌, ◌+◌, ◌<◌, ◌≤◌, ℕ, IfSome, None, false, length, slice_range, true};
ghost use Rattle.yaml_base.specs.PlainEvent.{alias};
ghost use Rattle.yaml_base.specs.declared.event.ScalarStyle.TheVariants as style;
ghost use Rattle.yaml_direct.specs.Added.{Adds, AddsLeaf, AddsScalar, HasNoLeaf};
ghost use Rattle.yaml_direct.specs.Bytes.{at};
ghost use Rattle.yaml_direct.specs.Gaps.{InLine};
ghost use Rattle.yaml_direct.specs.Held.{IsUnnamed, names_of};
ghost use Rattle.yaml_direct.specs.InBrackets.{quotes};
ghost use Rattle.yaml_direct.specs.Leaves.{IsAliasLeaf, IsFound, IsLeaf, IsPart, IsPlainLeaf, is_open};
ghost use Rattle.yaml_direct.specs.LeftInBrackets.{IsLeftOpen};
ghost use Rattle.yaml_direct.specs.Places.{IsHere, Keeps, Reaches, no_place};
ghost use Rattle.yaml_direct.specs.Quoted.{AddsQuoted, IsQuotedLeaf, quote_of};
ghost use Rattle.yaml_direct.specs.declared.quote.Quote.{Quote};
ghost use Rattle.yaml_direct.specs.declared.quote.Quote.TheVariants.{Double, Single};
ghost use Rattle.yaml_direct.specs.declared.leaf.LeafKind.TheVariants as kind;
ghost use Rattle.yaml_grammar.specs.Bytes.{is_text, parts_documents};
ghost use Rattle.yaml_grammar.specs.Leaves.{leaf_at};
ghost use Rattle.yaml_grammar.specs.Names.{name_end};
ghost use Rattle.yaml_grammar.specs.Plain.{Context, begins_plain, is_flow};

use crate::byte::at;
use crate::place::NO_PLACE;
use crate::plain::{begins_plain, plain_end};
use crate::properties::name_end;
use crate::quote::{Quote, closing, run_end};
use crate::reader::Reader;
use yaml_base::{Anchor, ScalarStyle};
use yaml_tape::Names;

// What a leaf is.
#[derive(Clone, Copy, PartialEq, Eq)]
pub(crate) enum LeafKind {
    Plain,
    // Between quotes, all of it standing for itself.
    Quoted(Quote),
    // Between quotes, some of it standing for something else.
    Escaped(Quote),
    Alias,
    // Quotes that are not closed in this line.
    Open(Quote),
}

// A leaf that was found: where its text begins and stops, and the place behind it.
#[derive(Clone, Copy)]
pub(crate) struct Leaf {
    pub(crate) kind: LeafKind,
    pub(crate) begin: usize,
    pub(crate) stop: usize,
    pub(crate) end: usize,
}

impl Leaf {
    // Plain text that stands here.
    #[inline(always)]
    pub(crate) fn plain(begin: usize, end: usize) -> Leaf
        ensures { (result.begin ≡ begin) × (result.stop ≡ end) × (result.end ≡ end)
            × (result.kind ≡ kind.Plain) }
    {
        Leaf {
            kind: LeafKind::Plain,
            begin,
            stop: end,
            end,
        }
    }
}

// The scalar between quotes that begins here.
#[inline(always)]
fn find_quoted(text: &[u8], quote: Quote, from: usize) -> Leaf
    requires { from < length text.now }
    ensures part { IsPart text.now from result }
    ensures quoted { IsQuotedLeaf text.now quote from result }
    ensures line { at text.now from ≢ 10 → is_open result.kind ≡ false → InLine text.now from result.end }
    ensures opened { is_open result.kind ≡ true → IsLeftOpen text.now quote (from + 1) result.stop }
{
    let begin = from + 1;
    let first = run_end(text, quote, begin);
    let stop = closing(text, quote, first);
    if stop == text.len() || text[stop] != quote.byte() {
        return Leaf {
            kind: LeafKind::Open(quote),
            begin,
            stop,
            end: stop,
        };
    }
    let kind = if stop == first {
        LeafKind::Quoted(quote)
    } else {
        LeafKind::Escaped(quote)
    };
    let end = stop + 1;
    Leaf {
        kind,
        begin,
        stop,
        end,
    }
}

// The alias that begins here.
fn find_alias(text: &[u8], flow: bool, from: usize) -> Option<Leaf>
    requires { from < length text.now }
    ensures part { IfSome result (IsPart text.now from) }
    ensures alias { is_text text.now ≡ true → IfSome result (IsAliasLeaf text.now flow from) }
    ensures missed { is_text text.now ≡ true → result ≡ None → name_end text.now flow (from + 1) ≡ None }
    ensures line { is_text text.now ≡ true → at text.now from ≢ 10 → IfSome result (λ leaf. InLine text.now from leaf.end) }
{
    let begin = from + 1;
    let end = name_end(text, flow, begin)?;
    Some(Leaf {
        kind: LeafKind::Alias,
        begin,
        stop: end,
        end,
    })
}

// The plain text that begins here.
#[inline(always)]
fn find_plain(text: &[u8], flow: bool, from: usize) -> Option<Leaf>
    requires { from ≤ length text.now }
    ensures part { IfSome result (IsPart text.now from) }
    ensures plain { is_text text.now ≡ true → parts_documents text.now from ≡ false
        → IfSome result (IsPlainLeaf text.now flow from) }
    ensures missed { is_text text.now ≡ true → parts_documents text.now from ≡ false → result ≡ None
        → begins_plain text.now flow from ≡ false }
{
    if !begins_plain(text, flow, from) {
        return None;
    }
    let end = plain_end(text, flow, from);
    Some(Leaf::plain(from, end))
}

// The leaf that begins here, within brackets or not, if one does.
#[inline(always)]
pub(crate) fn find_leaf(text: &[u8], flow: bool, from: usize) -> Option<Leaf>
    requires { from ≤ length text.now }
    ensures part { IfSome result (IsPart text.now from) }
    ensures double { at text.now from ≡ 34 → IfSome result (IsQuotedLeaf text.now Double from) }
    ensures single { at text.now from ≡ 39 → IfSome result (IsQuotedLeaf text.now Single from) }
    ensures some { result ≡ None → (at text.now from ≢ 34) × (at text.now from ≢ 39) }
    ensures found { is_text text.now ≡ true → parts_documents text.now from ≡ false
        → IfSome result (IsFound text.now flow from) }
    ensures missed { is_text text.now ≡ true → parts_documents text.now from ≡ false → result ≡ None
        → (context : Context) → is_flow context ≡ flow → leaf_at text.now context from ≡ None }
    ensures line { is_text text.now ≡ true → quotes (at text.now from) ≡ true
        → IfSome result (λ leaf. is_open leaf.kind ≡ false → InLine text.now from leaf.end) }
    ensures opened { (quote : Quote) → at text.now from ≡ quote_of quote → IfSome result (λ leaf.
        is_open leaf.kind ≡ true → IsLeftOpen text.now quote (from + 1) leaf.stop) }
{
    match at(text, from) {
        b'"' => Some(find_quoted(text, Quote::Double, from)),
        b'\'' => Some(find_quoted(text, Quote::Single, from)),
        b'*' => find_alias(text, flow, from),
        _ => find_plain(text, flow, from),
    }
}

impl<'a> Reader<'a> {
    // Adds the node as an alias of this name.
    fn push_alias_named(&mut self, name: Anchor, next: usize) -> usize
        requires begun { self.old.start.index ≤ length self.old.text.now }
        ensures kept { Keeps self.old self.new }
        ensures there { result ≢ no_place → result ≡ next }
        ensures starved { result ≡ no_place → next ≢ no_place → self.new.starved ≡ true }
        ensures names { self.new.names ≡ self.old.names }
        ensures added { result ≢ no_place → Adds self.old self.new (alias name) self.old.start }
    {
        let names = Names {
            anchor: Some(name),
            tag: None,
        };
        let Some(id) = self.tape.keep_names(names) else {
            return self.starve();
        };
        let start = self.start;
        if !self.tape.push_alias(start, id) {
            return self.starve();
        }
        next
    }

    // Adds the node as an alias, before which nothing may stand.
    #[inline(never)]
    fn push_alias(&mut self, leaf: Leaf) -> usize
        requires part { (leaf.begin ≤ leaf.stop) × (leaf.stop ≤ leaf.end) }
        requires begun { self.old.start.index ≤ leaf.end }
        requires within { leaf.end ≤ length self.old.text.now }
        ensures kept { Keeps self.old self.new }
        ensures there { result ≢ no_place → result ≡ leaf.end }
        ensures unnamed { result ≢ no_place → IsUnnamed self.old × IsUnnamed self.new }
        ensures added { result ≢ no_place
            → Adds self.old self.new (alias (slice_range self.old.text.now leaf.begin leaf.stop)) self.old.start }
        ensures missed { result ≡ no_place → self.new.starved ≡ false → IsUnnamed self.old → ⊥ }
    {
        if self.named {
            return NO_PLACE;
        }
        match Vec::from_slice(self.alloc, &self.text[leaf.begin..leaf.stop]) {
            Ok(name) => self.push_alias_named(Anchor::new(name), leaf.end),
            Err(_) => self.starve(),
        }
    }

    // Adds the node as the leaf that was found, in one line, and gives the place behind it.
    #[inline(always)]
    pub(crate) fn push_leaf(&mut self, leaf: Leaf) -> usize
        requires part { (leaf.begin ≤ leaf.stop) × (leaf.stop ≤ leaf.end) }
        requires begun { self.old.start.index ≤ leaf.end }
        requires within { leaf.end ≤ length self.old.text.now }
        ensures kept { Keeps self.old self.new }
        ensures there { result ≢ no_place → result ≡ leaf.end }
        ensures plain { leaf.kind ≡ kind.Plain → result ≢ no_place → AddsScalar self.old self.new
            (slice_range self.old.text.now leaf.begin leaf.stop) style.Plain leaf.end }
        ensures quoted { (quote : Quote) (i : ℕ) → IsQuotedLeaf self.old.text.now quote i leaf → result ≢ no_place
            → AddsQuoted self.old self.new quote leaf.begin leaf.end }
        ensures found { (context : Context) (i : ℕ) → IsLeaf self.old.text.now context i leaf
            → self.old.start.late ≡ false → result ≢ no_place → AddsLeaf self.old self.new context i leaf.end }
        ensures missed { (context : Context) (i : ℕ) → IsLeaf self.old.text.now context i leaf
            → result ≡ no_place → self.new.starved ≡ false
            → HasNoLeaf self.old.text.now context (names_of self.old) i }
        ensures starved { leaf.kind ≡ kind.Plain → result ≡ no_place → self.new.starved ≡ true }
    {
        let end = leaf.end;
        match leaf.kind {
            LeafKind::Plain => self.push_text(leaf.begin, leaf.stop, ScalarStyle::Plain, end, end),
            LeafKind::Quoted(quote) => self.push_text(
                leaf.begin,
                leaf.stop,
                quote.style(),
                end,
                end,
            ),
            LeafKind::Escaped(quote) => self.push_escaped(quote, leaf.begin, leaf.stop, end),
            LeafKind::Alias => self.push_alias(leaf),
            LeafKind::Open(_) => NO_PLACE,
        }
    }
}
