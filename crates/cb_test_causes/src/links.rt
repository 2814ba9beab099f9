//! The model of the tests: a cut link silences both its ports, and a port that fails itself.
ghost use Rattle.std.specs.Prelude.{◌≡◌, [], ◌∷◌, IfOk};
ghost use Rattle.cb_span.specs.Links.{links, link_classes, link_events, link_relations, link_rules, to_ends};

use cb_model::{
    ClassId, ClassRow, EventId, EventRow, List, Model, Name, Place, RelId, RelRow, RuleRow, Tables,
};
use std::alloc::{AllocError, Global};

const LINK: ClassId = ClassId(0);

const PORT: ClassId = ClassId(1);

const CUT: EventId = EventId(0);

const LOSS: EventId = EventId(1);

const FAIL: EventId = EventId(2);

const NO_SIGNAL: EventId = EventId(3);

const ENDS: RelId = RelId(0);

const ON: RelId = RelId(1);

fn classes(alloc: Global) -> Result<List<ClassRow>, AllocError>
    ensures { IfOk result (λ rows. rows ≡ link_classes) }
{
    let mut rows = List::new(alloc);
    rows.push(ClassRow {
        name: Name::of(alloc, b"Link")?,
        parent: None,
    })?;
    rows.push(ClassRow {
        name: Name::of(alloc, b"Port")?,
        parent: None,
    })?;
    Ok(rows)
}

fn events(alloc: Global) -> Result<List<EventRow>, AllocError>
    ensures { IfOk result (λ rows. rows ≡ link_events) }
{
    let mut rows = List::new(alloc);
    rows.push(EventRow {
        class: LINK,
        name: Name::of(alloc, b"Cut")?,
        problem: true,
        symptom: false,
    })?;
    rows.push(EventRow {
        class: LINK,
        name: Name::of(alloc, b"Loss")?,
        problem: false,
        symptom: true,
    })?;
    rows.push(EventRow {
        class: PORT,
        name: Name::of(alloc, b"Fail")?,
        problem: true,
        symptom: false,
    })?;
    rows.push(EventRow {
        class: PORT,
        name: Name::of(alloc, b"NoSignal")?,
        problem: false,
        symptom: true,
    })?;
    Ok(rows)
}

fn relations(alloc: Global) -> Result<List<RelRow>, AllocError>
    ensures { IfOk result (λ rows. rows ≡ link_relations) }
{
    let mut rows = List::new(alloc);
    rows.push(RelRow {
        class: LINK,
        name: Name::of(alloc, b"ends")?,
        target: PORT,
        many: true,
        inverse: ON,
    })?;
    rows.push(RelRow {
        class: PORT,
        name: Name::of(alloc, b"on")?,
        target: LINK,
        many: false,
        inverse: ENDS,
    })?;
    Ok(rows)
}

fn to_ports(alloc: Global) -> Result<List<Place>, AllocError>
    ensures { IfOk result (λ path. path ≡ to_ends ∷ []) }
{
    let mut path = List::new(alloc);
    path.push(Place {
        rel: ENDS,
        plus: false,
    })?;
    Ok(path)
}

fn rules(alloc: Global) -> Result<List<RuleRow>, AllocError>
    ensures { IfOk result (λ rows. rows ≡ link_rules) }
{
    let mut rows = List::new(alloc);
    rows.push(RuleRow {
        class: LINK,
        name: Name::of(alloc, b"here")?,
        cause: CUT,
        path: List::new(alloc),
        effect: LOSS,
    })?;
    rows.push(RuleRow {
        class: LINK,
        name: Name::of(alloc, b"far")?,
        cause: CUT,
        path: to_ports(alloc)?,
        effect: NO_SIGNAL,
    })?;
    rows.push(RuleRow {
        class: PORT,
        name: Name::of(alloc, b"down")?,
        cause: FAIL,
        path: List::new(alloc),
        effect: NO_SIGNAL,
    })?;
    Ok(rows)
}

fn tables(alloc: Global) -> Result<Tables, AllocError>
    ensures { IfOk result (λ tables. tables ≡ links) }
{
    Ok(Tables {
        classes: classes(alloc)?,
        events: events(alloc)?,
        relations: relations(alloc)?,
        rules: rules(alloc)?,
        blocks: List::new(alloc),
        hides: List::new(alloc),
    })
}

/// The model of these tables.
pub(crate) fn model(alloc: Global) -> Result<Model, AllocError> {
    Model::seal(alloc, tables(alloc)?)
}
