//! The aliases of a document get their targets.

ghost use Rattle.std.specs.Prelude.{◌≡◌, ◌+◌, ◌<◌, ◌≤◌};
ghost use Rattle.yaml_load.specs.Words.{All, IfSome, IsTrue, drop, false, length, take, marked_events_of, find_in};
ghost use Rattle.yaml_load.specs.Words.{AllBefore, IsInOrder, IsPlaceOf, NoneBefore, settled};

use yaml_base::{Anchor, DocEvent, Mark};

// Whether the anchor at this place of the list stands in front of the alias. None does behind the last.
fn is_before(named: &[(Anchor, usize)], at: usize, alias: &(Anchor, usize)) -> bool
    requires { IsInOrder named.now }
    ensures within { IsTrue result → at < length named.now }
    ensures before { IsTrue result → AllBefore named.now alias.now (at + 1) }
    ensures behind { result ≡ false → NoneBefore named.now alias.now at }
{
    match named.get(at) {
        Some(anchor) => anchor.cmp(alias).is_lt(),
        None => false,
    }
}

// Where the alias belongs among the anchors. Aliases often follow in the order of their anchors, or against it, so it
// is looked for near the place of the alias before, and only then by halves.
fn place_of(named: &[(Anchor, usize)], alias: &(Anchor, usize), near: usize) -> usize
    requires { IsInOrder named.now }
    ensures place { IsPlaceOf named.now alias.now result }
    ensures within { result ≤ length named.now }
{
    if is_before(named, near, alias) {
        if !is_before(named, near + 1, alias) {
            return near + 1;
        }
    } else if near == 0 || is_before(named, near - 1, alias) {
        return near;
    } else if near == 1 || is_before(named, near - 2, alias) {
        return near - 1;
    }
    named.partition_point(|x| x.cmp(alias).is_lt())
}

// The last place of the alias's anchor in front of the alias, which belongs at this place of the list.
fn target_of(named: &[(Anchor, usize)], alias: &(Anchor, usize), at: usize) -> Option<usize>
    requires order { IsInOrder named.now }
    requires at { IsPlaceOf named.now alias.now at }
    requires within { at ≤ length named.now }
    ensures { result ≡ find_in named.now alias.now.0 alias.now.1 }
{
    let (anchor, place) = named.get(at.checked_sub(1)?)?;
    if *anchor == alias.0 {
        Some(*place)
    } else {
        None
    }
}

// Gives each alias of the document that begins at an event its target, up to the first one that has none, and answers
// the place of that one. The anchors stand in order, and so do the aliases.
pub(crate) fn resolve(
    events: &mut Vec<(DocEvent<'_>, Mark)>,
    from: usize,
    named: &[(Anchor, usize)],
    aliases: &[(Anchor, usize)],
) -> Option<usize>
    requires order { IsInOrder named.now }
    requires from { from ≤ length events.old.items }
    requires within { All (λ x. from + x.1 < length events.old.items) aliases.now }
    ensures settled { settled (find_in named.now) aliases.now
        (marked_events_of (drop from events.old.items))
        ≡ (marked_events_of (drop from events.new.items), result) }
    ensures front { take from events.new.items ≡ take from events.old.items }
    ensures count { length events.new.items ≡ length events.old.items }
    ensures place { IfSome result (λ place. from + place < length events.old.items) }
{
    let mut at = 0;
    'aliases: for alias in aliases {
        at = place_of(named, alias, at);
        match target_of(named, alias, at) {
            Some(target) => events[from + alias.1].0 = DocEvent::Alias(target),
            None => return Some(alias.1),
        }
    }
    None
}
