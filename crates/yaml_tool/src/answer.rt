//! What is answered to a text.

ghost use Rattle.std.specs.Prelude.{◌≡◌, [], string_bytes, IfOk};
ghost use Rattle.yaml_read.specs.Documents.{documents_of};
ghost use Rattle.serde_yaml.specs.TextReads.{IsParsed};
ghost use Rattle.yaml_run.specs.Shown.{AreShown, ended_by, IsShown};
ghost use Rattle.yaml_tool.specs.Answers.{any_first, any_table, IsAnswer, IsAsked};
ghost use Rattle.yaml_tool.specs.declared.task.Task.TheVariants.{Ask, AskEach, Events, FromJson, FullEvents};
ghost use Rattle.yaml_tool.specs.declared.task.Task.TheVariants.{Show, ShowEach};

use crate::answered::{Answered, of_parts, of_shown, of_text};
use crate::asked::{asked, asked_in_turn};
use crate::convert::converted;
use crate::events::{told_events, told_full_events};
use crate::from_json::from_json;
use crate::question::Question;
use crate::task::Task;
use serde_yaml::{Deserializer, Limits};
use std::alloc::{AllocError, Global};
use yaml_report::faults_of;
use yaml_run::{Named, Shown, Status, show_in_turn, show_text};
use yaml_shape::ShapeId;

// The data of the one document of a text: a line.
fn shown(alloc: Global, limits: Limits, text: &[u8]) -> Result<Shown, AllocError>
    ensures { IfOk result (λ shown.
        IsShown limits any_table any_first text.now (string_bytes shown.text) shown.faults.items) }
{
    let Ok(schema) = Named::Any.schema(alloc) else {
        return Err(AllocError);
    };
    show_text(alloc, &schema, ShapeId(0), limits, text)
}

// The data of each document of a text: a line each.
fn shown_in_turn(alloc: Global, limits: Limits, text: &[u8]) -> Result<Shown, AllocError>
    ensures { IfOk result (λ shown. IsParsed text.now (λ events fault. AreShown limits any_table any_first
        (documents_of events fault) (string_bytes shown.text) shown.faults.items)) }
{
    let Ok(schema) = Named::Any.schema(alloc) else {
        return Err(AllocError);
    };
    let Ok(stream) = Deserializer::from_slice(alloc, text) else {
        return Err(AllocError);
    };
    show_in_turn(alloc, stream, &schema, ShapeId(0), limits)
}

// The answer to `Task::Show`.
fn show(alloc: Global, limits: Limits, text: &[u8]) -> Result<Answered, AllocError>
    ensures { IfOk result (λ answer.
        IsAsked (Show limits) text.now answer.ended (string_bytes answer.text) answer.faults.items) }
{
    let shown = shown(alloc, limits, text)?;
    let ended = shown.ended();
    Ok(Answered {
        ended,
        text: shown.text,
        faults: shown.faults,
    })
}

// The answer to `Task::ShowEach`.
fn show_each(alloc: Global, limits: Limits, text: &[u8]) -> Result<Answered, AllocError>
    ensures { IfOk result (λ answer.
        IsAsked (ShowEach limits) text.now answer.ended (string_bytes answer.text) answer.faults.items) }
{
    let shown = shown_in_turn(alloc, limits, text)?;
    let ended = shown.ended();
    Ok(Answered {
        ended,
        text: shown.text,
        faults: shown.faults,
    })
}

// The answer to `Task::Events`.
fn events(alloc: Global, text: &[u8]) -> Result<Answered, AllocError>
    ensures { IfOk result (λ answer.
        IsAsked Events text.now answer.ended (string_bytes answer.text) answer.faults.items) }
{
    let told = told_events(alloc, text)?;
    Ok(Answered {
        ended: told.ended,
        text: told.text,
        faults: Vec::new(alloc),
    })
}

// The answer to `Task::FullEvents`.
fn full_events(alloc: Global, text: &[u8]) -> Result<Answered, AllocError>
    ensures { IfOk result (λ answer.
        IsAsked FullEvents text.now answer.ended (string_bytes answer.text) answer.faults.items) }
{
    let told = told_full_events(alloc, text)?;
    Ok(Answered {
        ended: told.ended,
        text: told.text,
        faults: Vec::new(alloc),
    })
}

// The faults of a text that need no type to tell, and no lines.
fn checked(alloc: Global, text: &[u8]) -> Result<Answered, AllocError>
    ensures { IfOk result (λ answer. answer.ended ≡ ended_by answer.faults.items) }
{
    Ok(of_parts(String::new(alloc), faults_of(alloc, text)?))
}

// The answer to `Task::Ask`.
fn ask(alloc: Global, question: &Question, text: &[u8]) -> Result<Answered, AllocError>
    ensures { IfOk result (λ answer.
        IsAsked (Ask question.now) text.now answer.ended (string_bytes answer.text) answer.faults.items) }
{
    of_text(alloc, asked(alloc, question, text))
}

// The answer to `Task::AskEach`.
fn ask_each(alloc: Global, question: &Question, text: &[u8]) -> Result<Answered, AllocError>
    ensures { IfOk result (λ answer.
        IsAsked (AskEach question.now) text.now answer.ended (string_bytes answer.text) answer.faults.items) }
{
    let shown = asked_in_turn(alloc, question, text)?;
    Ok(of_shown(shown))
}

// The answer to `Task::FromJson`.
fn read_json(alloc: Global, text: &[u8]) -> Result<Answered, AllocError>
    ensures { IfOk result (λ answer.
        IsAsked FromJson text.now answer.ended (string_bytes answer.text) answer.faults.items) }
{
    of_text(alloc, from_json(alloc, text))
}

// What is asked of a text.
fn answered(alloc: Global, task: &Task, text: &[u8]) -> Result<Answered, AllocError>
    ensures { IfOk result (λ answer.
        IsAsked task.now text.now answer.ended (string_bytes answer.text) answer.faults.items) }
{
    match task {
        Task::Show(limits) => show(alloc, *limits, text),
        Task::ShowEach(limits) => show_each(alloc, *limits, text),
        Task::Convert(limits) => of_text(alloc, converted(alloc, *limits, text)),
        Task::Ask(question) => ask(alloc, question, text),
        Task::AskEach(question) => ask_each(alloc, question, text),
        Task::FromJson => read_json(alloc, text),
        Task::Events => events(alloc, text),
        Task::FullEvents => full_events(alloc, text),
        Task::Check => checked(alloc, text),
    }
}

/// The answer where memory runs out: nothing.
pub fn no_answer(alloc: Global) -> Answered
    ensures ended { result.ended ≡ Status.OutOfMemory }
    ensures text { string_bytes result.text ≡ [] }
    ensures faults { result.faults.items ≡ [] }
{
    Answered {
        ended: Status::OutOfMemory,
        text: String::new(alloc),
        faults: Vec::new(alloc),
    }
}

/// What a text is answered. Where memory runs out, nothing is printed and no fault is told.
pub fn answer_to(alloc: Global, task: &Task, text: &[u8]) -> Answered
    ensures { IsAnswer task.now text.now result.ended (string_bytes result.text) result.faults.items }
{
    match answered(alloc, task, text) {
        Ok(answer) => answer,
        Err(_) => no_answer(alloc),
    }
}
