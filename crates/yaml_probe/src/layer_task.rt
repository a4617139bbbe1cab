//! What a case asks of the layers below a whole reading.

use probe_writing::number;
use yaml_shape::ShapeId;

/// What is asked of the layers below a whole reading.
#[derive(Clone, Copy)]
pub enum LayerTask {
    /// Its lines are events, to be read by the calls for this shape alone.
    Call(ShapeId),
    /// Its lines are events, whose documents are to be shown.
    Load,
    /// The same, with the mark and the end of each event.
    LoadMarked,
    /// Its one line spells a YAML text, whose documents are to be shown.
    LoadText,
    /// Its one line spells a YAML text, whose events are to be shown.
    Events,
    /// Its one line spells a YAML text, whose events by both parsers are to be compared.
    Parsers,
    /// Its one line spells a YAML text, which the direct parser is to read document by document.
    Direct,
    /// Its first line has steps of a cursor, to be done in the first document of the events behind it.
    Steps,
}

impl LayerTask {
    /// What is asked by a word.
    pub fn parse(word: &str) -> Option<LayerTask> {
        match word {
            "loaded" => Some(LayerTask::Load),
            "marked" => Some(LayerTask::LoadMarked),
            "loaded_text" => Some(LayerTask::LoadText),
            "events" => Some(LayerTask::Events),
            "parsers" => Some(LayerTask::Parsers),
            "direct" => Some(LayerTask::Direct),
            "cursor" => Some(LayerTask::Steps),
            _ => Some(LayerTask::Call(number(word.strip_prefix("call:")?)?)),
        }
    }
}
