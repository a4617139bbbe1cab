//! Laws of the definitions, each the contract of a function that does nothing.

ghost use Rattle.std.specs.Prelude.{◌≡◌, All, List, Ok};
ghost use Rattle.yaml_query.specs.PathText.{path_steps};
ghost use Rattle.yaml_query.specs.Steps.{IsStep, PlainStep};
ghost use Rattle.yaml_query.specs.StepsText.{steps_text};

/// The text of steps is read as these steps.
pub fn printed_steps_are_read()
    ensures { (steps : List PlainStep) → All IsStep steps → path_steps (steps_text steps) ≡ Ok steps }
{}
