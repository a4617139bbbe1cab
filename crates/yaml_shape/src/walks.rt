//! Whether a walk through optionals alone comes back to its start.
//!
//! The steps of all shapes are doubled until no walk goes on so far, or until they are more than a schema has shapes.
//! Where a walk goes on so far then, it has come to a cycle, and each shape on a cycle is the end of such a walk, the
//! one that begins so many steps before it on the cycle.

ghost use Rattle.std.specs.Prelude.{◌≡◌, ◌≤◌, ℕ, map, length, None, IsNone, IfOk, IfSome};
ghost use Rattle.yaml_shape.specs.ShapeView.{shape_of};
ghost use Rattle.yaml_shape.specs.Validity.{optional_content, IsCycle};
ghost use Rattle.yaml_shape.specs.Walks.{led_from, led_on, lesser, IsLeastEnd};
ghost use Rattle.yaml_shape.specs.SchemaRefusal.{IsFirstCycle};

use crate::shape::Shape;
use std::alloc::{AllocError, Global};

// The steps are doubled so many times, to 8,192 of them.
const DOUBLINGS: u32 = 13;

// Where a step through an optional leads.
fn content(shape: &Shape) -> Option<usize>
    ensures { result ≡ optional_content (shape_of shape.now) }
{
    match shape {
        Shape::Option(content) => Some(content.0 as usize),
        _ => None,
    }
}

// Where one step leads from each shape. The only error is want of memory.
fn first_steps(alloc: Global, shapes: &[Shape]) -> Result<Vec<Option<usize>>, AllocError>
    ensures { IfOk result
        (λ steps. steps.items ≡ map optional_content (map shape_of shapes.now)) }
{
    let mut steps = Vec::with_capacity(alloc, shapes.len())?;
    for i in 0..shapes.len() {
        steps.push(content(&shapes[i]))?;
    }
    Ok(steps)
}

// Where the steps lead from where they led to.
fn led_on(steps: &[Option<usize>], step: Option<usize>) -> Option<usize>
    ensures { result ≡ led_on steps.now step }
{
    match step {
        Some(id) if id < steps.len() => steps[id],
        _ => None,
    }
}

// Twice as many steps from each shape. The only error is want of memory.
fn doubled(alloc: Global, steps: &[Option<usize>]) -> Result<Vec<Option<usize>>, AllocError>
    ensures { IfOk result (λ twice. twice.items ≡ map (led_on steps.now) steps.now) }
{
    let mut twice = Vec::with_capacity(alloc, steps.len())?;
    for i in 0..steps.len() {
        twice.push(led_on(steps, steps[i]))?;
    }
    Ok(twice)
}

// The lesser of two numbers, or the one that is there.
fn lesser(a: Option<usize>, b: Option<usize>) -> Option<usize>
    ensures { result ≡ lesser a b }
{
    match a {
        None => b,
        Some(x) => match b {
            None => Some(x),
            Some(y) => Some(x.min(y)),
        },
    }
}

// The first shape to which steps lead.
fn least(steps: &[Option<usize>]) -> Option<usize>
    ensures none { IsNone result → (id : ℕ) → led_from steps.now id ≡ None }
    ensures least { IfSome result (IsLeastEnd steps.now) }
{
    let mut least = None;
    for i in 0..steps.len() {
        least = lesser(least, steps[i]);
    }
    least
}

/// The first shape from which a walk through optionals leads back to it, if there is one. The only error is want of
/// memory.
pub(crate) fn first_cycle(alloc: Global, shapes: &[Shape]) -> Result<Option<usize>, AllocError>
    requires { length shapes.now ≤ 4096 }
    ensures none { IfOk result
        (λ r. IsNone r → (id : ℕ) → IsCycle (map shape_of shapes.now) id → ⊥) }
    ensures first { IfOk result (λ r. IfSome r (IsFirstCycle (map shape_of shapes.now))) }
{
    let mut steps = first_steps(alloc, shapes)?;
    for doubling in 0..DOUBLINGS {
        if least(&steps).is_none() {
            return Ok(None);
        }
        steps = doubled(alloc, &steps)?;
    }
    Ok(least(&steps))
}
