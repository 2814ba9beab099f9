//! The model of the tests: a leak makes the next two pipes dry.
ghost use Rattle.std.specs.Prelude.{◌≡◌, [], ◌∷◌, IfOk};
ghost use Rattle.cb_graph.specs.Pipes.{pipes, pipe_classes, pipe_events, pipe_relations, pipe_rules, next_step as to_next};

use cb_model::{
    ClassId, ClassRow, EventId, EventRow, List, Model, Name, Place, RelId, RelRow, RuleRow, Tables,
};
use std::alloc::{AllocError, Global};

const PIPE: ClassId = ClassId(0);

const NEXT: RelId = RelId(0);

const BACK: RelId = RelId(1);

const TO_NEXT: Place = Place {
    rel: NEXT,
    plus: false,
};

fn classes(alloc: Global) -> Result<List<ClassRow>, AllocError>
    ensures { IfOk result (λ rows. rows ≡ pipe_classes) }
{
    let mut rows = List::new(alloc);
    rows.push(ClassRow {
        name: Name::of(alloc, b"Pipe")?,
        parent: None,
    })?;
    Ok(rows)
}

fn events(alloc: Global) -> Result<List<EventRow>, AllocError>
    ensures { IfOk result (λ rows. rows ≡ pipe_events) }
{
    let mut rows = List::new(alloc);
    rows.push(EventRow {
        class: PIPE,
        name: Name::of(alloc, b"Leak")?,
        problem: true,
        symptom: false,
    })?;
    rows.push(EventRow {
        class: PIPE,
        name: Name::of(alloc, b"Dry")?,
        problem: false,
        symptom: true,
    })?;
    Ok(rows)
}

fn relations(alloc: Global) -> Result<List<RelRow>, AllocError>
    ensures { IfOk result (λ rows. rows ≡ pipe_relations) }
{
    let mut rows = List::new(alloc);
    rows.push(RelRow {
        class: PIPE,
        name: Name::of(alloc, b"next")?,
        target: PIPE,
        many: true,
        inverse: BACK,
    })?;
    rows.push(RelRow {
        class: PIPE,
        name: Name::of(alloc, b"back")?,
        target: PIPE,
        many: false,
        inverse: NEXT,
    })?;
    Ok(rows)
}

fn one_step(alloc: Global) -> Result<List<Place>, AllocError>
    ensures { IfOk result (λ path. path ≡ to_next ∷ []) }
{
    let mut path = List::new(alloc);
    path.push(TO_NEXT)?;
    Ok(path)
}

fn two_steps(alloc: Global) -> Result<List<Place>, AllocError>
    ensures { IfOk result (λ path. path ≡ to_next ∷ to_next ∷ []) }
{
    let mut path = List::new(alloc);
    path.push(TO_NEXT)?;
    path.push(TO_NEXT)?;
    Ok(path)
}

fn rules(alloc: Global) -> Result<List<RuleRow>, AllocError>
    ensures { IfOk result (λ rows. rows ≡ pipe_rules) }
{
    let cause = EventId(0);
    let effect = EventId(1);
    let mut rows = List::new(alloc);
    rows.push(RuleRow {
        class: PIPE,
        name: Name::of(alloc, b"near")?,
        cause,
        path: one_step(alloc)?,
        effect,
    })?;
    rows.push(RuleRow {
        class: PIPE,
        name: Name::of(alloc, b"far")?,
        cause,
        path: two_steps(alloc)?,
        effect,
    })?;
    Ok(rows)
}

fn tables(alloc: Global) -> Result<Tables, AllocError>
    ensures { IfOk result (λ tables. tables ≡ pipes) }
{
    Ok(Tables {
        classes: classes(alloc)?,
        events: events(alloc)?,
        relations: relations(alloc)?,
        rules: rules(alloc)?,
        blocks: List::new(alloc),
        hides: List::new(alloc),
    })
}

/// The model of these tables.
pub(crate) fn model(alloc: Global) -> Result<Model, AllocError> {
    Model::seal(alloc, tables(alloc)?)
}
