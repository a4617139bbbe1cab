//! What a path leads to.

ghost use Rattle.std.specs.Prelude.{◌≡◌, option_map};
ghost use Rattle.yaml_value.specs.Path.{Leads, LeadsAlong, LeadsTo, LeadsToPlace, parts_of};
ghost use Rattle.yaml_value.specs.TagText.{behind_byte};
ghost use Rattle.yaml_value.specs.View.{plain};

use crate::value::Value;

// What stands behind a slash in front.
fn behind_slash(path: &str) -> Option<&str>
    ensures { option_map (λ rest. rest.now) result ≡ behind_byte 47 path.now }
{
    path.strip_prefix('/')
}

// To the element in the place, or the value at the key, that this number is.
fn in_place<'v>(from: &'v Value, part: &str) -> Option<&'v Value>
    ensures { LeadsToPlace part.now (plain from.now) (option_map (λ value. plain value.now) result) }
{
    match part.parse::<usize>() {
        Ok(place) => from.at(place),
        Err(_) => None,
    }
}

// A step of a path: to the value at this key, or to the element in this place.
fn step<'v>(from: &'v Value, part: &str) -> Option<&'v Value>
    ensures { Leads part.now (plain from.now) (option_map (λ value. plain value.now) result) }
{
    match from.get(part) {
        Some(value) => Some(value),
        None => in_place(from, part),
    }
}

// The steps of a path, each within what the one before leads to.
fn along<'v>(from: &'v Value, path: &str) -> Option<&'v Value>
    ensures { LeadsAlong (parts_of path.now) (plain from.now) (option_map (λ value. plain value.now) result) }
{
    match path.split_once('/') {
        Some((part, behind)) => along(step(from, part)?, behind),
        None => step(from, path),
    }
}

impl Value {
    /// What a path such as `servers/1/port` leads to: each step is a key, or a place in a sequence, counted from 0.
    ///
    /// A `/` in front is passed over, and the empty path leads to the value itself. A key with a `/` in it is reached
    /// by `get` alone. Tags on the way are looked through. Takes no memory.
    pub fn pointer(&self, path: &str) -> Option<&Value>
        ensures { LeadsTo path.now (plain self.now) (option_map (λ value. plain value.now) result) }
    {
        let path = behind_slash(path).unwrap_or(path);
        if path.is_empty() {
            return Some(self);
        }
        along(self, path)
    }
}
