//! The path that a text is.

ghost use Rattle.std.specs.Prelude.{◌≡◌, IfErr, IfOk, Ok};
ghost use Rattle.yaml_query.specs.PathFaults.{IsFaultOf};
ghost use Rattle.yaml_query.specs.PathText.{path_steps};
ghost use Rattle.yaml_query.specs.Steps.{plain_steps};

use crate::reading::{Place, Reading, next};
use crate::step::Path;
use std::alloc::{AllocError, Global};

/// Why a text is not read as a path.
#[derive(Clone, Copy, PartialEq, Eq, Debug, Drop)]
pub enum PathFault {
    /// It is none: no path goes on, or ends, at this column. Columns count characters, from 1 on.
    At(usize),
    /// Memory ran out.
    Memory,
}

impl From<AllocError> for PathFault {
    ghost use Rattle.std.specs.Prelude.{◌≡◌};
    ghost use Rattle.yaml_query.specs.declared.parse.PathFault.TheVariants.{Memory};

    ghost from_gives = { λ _ fault. fault ≡ Memory };

    fn from(_fault: AllocError) -> PathFault {
        PathFault::Memory
    }
}

/// The path that a text is, such as `servers[1].port`: keys with a dot between them, and places, from 0 on, between
/// brackets. A key with a dot, a bracket or a quote in it stands between quotes, `"a.b"` or `'a.b'`, and two of them
/// stand for one within. A dot may stand first. The empty text, or a dot alone, is the path to the whole.
pub fn parse_path(alloc: Global, text: &str) -> Result<Path, PathFault>
    ensures path { IfOk result (λ path. path_steps text.now ≡ Ok (plain_steps path.steps.items)) }
    ensures fault { IfErr result (IsFaultOf text.now) }
{
    let mut reading = Reading::new(alloc);
    let mut place = Place::Start;
    let mut column = 1;
    for c in text.chars() {
        let Some((behind, act)) = next(place, c) else {
            return Err(PathFault::At(column));
        };
        if !reading.perform(alloc, act, c)? {
            return Err(PathFault::At(column));
        }
        place = behind;
        column += 1;
    }
    if !reading.finish(alloc, place)? {
        return Err(PathFault::At(column));
    }
    Ok(Path {
        steps: reading.steps,
    })
}
