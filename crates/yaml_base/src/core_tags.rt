//! A law of the texts of the core schema's tags.

ghost use Rattle.std.specs.Prelude.{◌≡◌, codes};

use crate::tag::Tag;

/// A law, and nothing to be run: the texts of the tags of null, booleans, integers and floats.
pub fn core_tags_have_their_texts()
    ensures null { Tag.NULL.now ≡ codes "tag:yaml.org,2002:null" }
    ensures bool { Tag.BOOL.now ≡ codes "tag:yaml.org,2002:bool" }
    ensures int { Tag.INT.now ≡ codes "tag:yaml.org,2002:int" }
    ensures float { Tag.FLOAT.now ≡ codes "tag:yaml.org,2002:float" }
{}
