//! A small model to try things on.
ghost use Rattle.std.specs.Prelude.{◌≡◌, IfOk};
ghost use Rattle.cb_sample.specs.Sample.{sample_classes, sample_events, sample_relations, sample_rules, sample};

use cb_model::{
    BlockRow, ClassId, ClassRow, EventId, EventRow, HideRow, List, Model, Name, RelId, RelRow,
    RuleRow, Tables,
};
use std::alloc::{AllocError, Global};

fn classes(alloc: Global) -> Result<List<ClassRow>, AllocError>
    ensures { IfOk result (λ rows. rows ≡ sample_classes) }
{
    let mut rows = List::new(alloc);
    rows.push(ClassRow {
        name: Name::of(alloc, b"Base")?,
        parent: None,
    })?;
    rows.push(ClassRow {
        name: Name::of(alloc, b"Mid")?,
        parent: Some(ClassId(0)),
    })?;
    rows.push(ClassRow {
        name: Name::of(alloc, b"Low")?,
        parent: Some(ClassId(1)),
    })?;
    rows.push(ClassRow {
        name: Name::of(alloc, b"Port")?,
        parent: None,
    })?;
    Ok(rows)
}

fn events(alloc: Global) -> Result<List<EventRow>, AllocError>
    ensures { IfOk result (λ rows. rows ≡ sample_events) }
{
    let class = ClassId(0);
    let mut rows = List::new(alloc);
    rows.push(EventRow {
        class,
        name: Name::of(alloc, b"P")?,
        problem: true,
        symptom: false,
    })?;
    rows.push(EventRow {
        class,
        name: Name::of(alloc, b"S")?,
        problem: false,
        symptom: true,
    })?;
    rows.push(EventRow {
        class,
        name: Name::of(alloc, b"T")?,
        problem: false,
        symptom: true,
    })?;
    Ok(rows)
}

fn relations(alloc: Global) -> Result<List<RelRow>, AllocError>
    ensures { IfOk result (λ rows. rows ≡ sample_relations) }
{
    let mut rows = List::new(alloc);
    rows.push(RelRow {
        class: ClassId(0),
        name: Name::of(alloc, b"ports")?,
        target: ClassId(3),
        many: true,
        inverse: RelId(1),
    })?;
    rows.push(RelRow {
        class: ClassId(3),
        name: Name::of(alloc, b"owner")?,
        target: ClassId(0),
        many: false,
        inverse: RelId(0),
    })?;
    Ok(rows)
}

fn rules(alloc: Global) -> Result<List<RuleRow>, AllocError>
    ensures { IfOk result (λ rows. rows ≡ sample_rules) }
{
    let class = ClassId(0);
    let cause = EventId(0);
    let mut rows = List::new(alloc);
    rows.push(RuleRow {
        class,
        name: Name::of(alloc, b"s")?,
        cause,
        path: List::new(alloc),
        effect: EventId(1),
    })?;
    rows.push(RuleRow {
        class,
        name: Name::of(alloc, b"t")?,
        cause,
        path: List::new(alloc),
        effect: EventId(2),
    })?;
    Ok(rows)
}

/// The model of `specs/Sample.antt`, sealed: four classes with an inherited relation, a block and a hide.
pub fn sample_model(alloc: Global) -> Result<Model, AllocError>
    ensures { IfOk result (λ model. model ≡ sample) }
{
    let mut blocks = List::new(alloc);
    blocks.push(BlockRow {
        class: ClassId(1),
        rule: 1,
    })?;
    let mut hides = List::new(alloc);
    hides.push(HideRow {
        class: ClassId(2),
        event: EventId(2),
    })?;
    let tables = Tables {
        classes: classes(alloc)?,
        events: events(alloc)?,
        relations: relations(alloc)?,
        rules: rules(alloc)?,
        blocks,
        hides,
    };
    Model::seal(alloc, tables)
}
