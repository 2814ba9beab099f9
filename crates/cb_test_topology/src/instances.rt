//! Instances of two classes of the sample model, by their names: a base with many ports, each of which has one owner.
ghost use Rattle.std.specs.Prelude.{◌≡◌, ◌↔◌, IfOk, IfSome, IsTrue};
ghost use Rattle.cb_model.specs.WellTyped.{IsClass, IsRelation};
ghost use Rattle.cb_instances.specs.Net.{IsLiveInstance, HasEventAt};

use cb_instances::{InstanceId, Net};
use cb_model::{ClassId, EventId, Model, RelId};
use cb_sample::sample_model;
use std::alloc::{AllocError, Global};
use std::process::Abort;

const BASE: ClassId = ClassId(0);

const PORT: ClassId = ClassId(3);

const PORTS: RelId = RelId(0);

const OWNER: RelId = RelId(1);

fn sample_net(alloc: Global) -> Result<Net, AllocError> {
    let model = sample_model(alloc)?;
    Ok(Net::new(alloc, model))
}

fn is_class(model: &Model, class: ClassId) -> bool
    ensures { IsTrue result ↔ IsClass model.now class }
{
    (class.0 as usize) < model.tables().classes.len()
}

fn is_relation(model: &Model, rel: RelId) -> bool
    ensures { IsTrue result ↔ IsRelation model.now rel }
{
    (rel.0 as usize) < model.tables().relations.len()
}

// The event of this name that the instance's class has.
fn event_at(net: &Net, id: InstanceId, name: &[u8]) -> Option<EventId>
    requires { IsLiveInstance net.now id }
    ensures { IfSome result (HasEventAt net.now id) }
{
    let class = net.class_of(id);
    if is_class(net.model(), class) {
        net.model().event_named(class, name)
    } else {
        None
    }
}

// Whether the name was free, and is that of a new instance now, for which there is as much capacity as was expected.
fn create(alloc: Global, net: &mut Net, name: &[u8], class: ClassId) -> Result<bool, AllocError> {
    if !is_class(net.model(), class) || net.instance_named(name).is_some() {
        return Ok(false);
    }
    let foretold = net.capacity_with_one();
    let id = net.create(alloc, name, class)?;
    Ok(net.capacity() == foretold && net.instance_named(name) == Some(id))
}

// Whether the link was absent, and is added.
fn link(
    alloc: Global,
    net: &mut Net,
    from: &[u8],
    rel: RelId,
    to: &[u8],
) -> Result<bool, AllocError> {
    let Some(from) = net.instance_named(from) else {
        return Ok(false);
    };
    let Some(to) = net.instance_named(to) else {
        return Ok(false);
    };
    if !is_relation(net.model(), rel) || net.is_linked(from, rel, to) {
        return Ok(false);
    }
    net.link(alloc, from, rel, to)?;
    Ok(true)
}

// Whether the link stood, and is taken away.
fn unlink(net: &mut Net, from: &[u8], rel: RelId, to: &[u8]) -> bool {
    let Some(from) = net.instance_named(from) else {
        return false;
    };
    let Some(to) = net.instance_named(to) else {
        return false;
    };
    if !is_relation(net.model(), rel) || !net.is_linked(from, rel, to) {
        return false;
    }
    net.unlink(from, rel, to);
    true
}

// How many instances the relation leads to.
fn count_from(net: &Net, from: &[u8], rel: RelId) -> Option<usize> {
    let from = net.instance_named(from)?;
    Some(net.links(from, rel).len())
}

// Whether the relation leads from the one to the other.
fn leads(net: &Net, from: &[u8], rel: RelId, to: &[u8]) -> bool {
    let Some(from) = net.instance_named(from) else {
        return false;
    };
    let Some(to) = net.instance_named(to) else {
        return false;
    };
    net.links(from, rel).iter().any(|at| *at == to)
}

// Whether the event was heard, and is muted.
fn mute(net: &mut Net, name: &[u8], event: &[u8]) -> bool {
    let Some(id) = net.instance_named(name) else {
        return false;
    };
    let Some(event) = event_at(net, id, event) else {
        return false;
    };
    if net.is_muted(id, event) {
        return false;
    }
    net.mute(id, event);
    true
}

// Whether the event was muted, and is muted no more.
fn unmute(net: &mut Net, name: &[u8], event: &[u8]) -> bool {
    let Some(id) = net.instance_named(name) else {
        return false;
    };
    let Some(event) = event_at(net, id, event) else {
        return false;
    };
    if !net.is_muted(id, event) {
        return false;
    }
    net.unmute(id, event);
    true
}

// Whether the event is muted, if the instance has it.
fn is_muted(net: &Net, name: &[u8], event: &[u8]) -> Option<bool> {
    let id = net.instance_named(name)?;
    let event = event_at(net, id, event)?;
    Some(net.is_muted(id, event))
}

// Takes the instance away.
fn delete(net: &mut Net, name: &[u8]) -> bool {
    let Some(id) = net.instance_named(name) else {
        return false;
    };
    net.delete(id);
    net.instance_named(name).is_none()
}

// What is done, or asked, with two names.
#[derive(Clone, Copy)]
enum Step {
    NewBase,
    NewPort,
    // From the base.
    Link,
    // From the port.
    Unlink,
    HasPort,
    HasOwner,
    HasNoOwner,
    Mute,
    Unmute,
    IsMuted,
    Delete,
}

// Whether it could be done, or is so.
fn try_step(
    alloc: Global,
    net: &mut Net,
    step: Step,
    name: &[u8],
    other: &[u8],
) -> Result<bool, AllocError> {
    match step {
        Step::NewBase => create(alloc, net, name, BASE),
        Step::NewPort => create(alloc, net, name, PORT),
        Step::Link => link(alloc, net, name, PORTS, other),
        Step::Unlink => Ok(unlink(net, name, OWNER, other)),
        Step::HasPort => Ok(leads(net, name, PORTS, other)),
        Step::HasOwner => Ok(leads(net, name, OWNER, other)),
        Step::HasNoOwner => Ok(count_from(net, name, OWNER) == Some(0)),
        Step::Mute => Ok(mute(net, name, other)),
        Step::Unmute => Ok(unmute(net, name, other)),
        Step::IsMuted => Ok(is_muted(net, name, other) == Some(true)),
        Step::Delete => Ok(delete(net, name)),
    }
}

fn try_all(
    rt: &impl Abort,
    alloc: Global,
    net: &mut Net,
    steps: &[(Step, &[u8], &[u8], bool)],
) -> Result<(), AllocError> {
    for (step, name, other, wanted) in steps {
        let done = try_step(alloc, net, *step, name, other)?;
        assert_eq!(rt; done, *wanted, "{name:?} {other:?}");
    }
    Ok(())
}

// What is done in turn, and whether it can be done or is so.
const STEPS: [(Step, &[u8], &[u8], bool); 35] = [
    (Step::NewBase, b"hub", b"", true),
    (Step::NewPort, b"p1", b"", true),
    (Step::NewPort, b"p2", b"", true),
    (Step::NewBase, b"p2", b"", false),
    (Step::Link, b"hub", b"p1", true),
    (Step::Link, b"hub", b"p2", true),
    (Step::Link, b"hub", b"p1", false),
    (Step::HasPort, b"hub", b"p1", true),
    (Step::HasOwner, b"p1", b"hub", true),
    (Step::HasNoOwner, b"p1", b"", false),
    // Unlinked from the other side.
    (Step::Unlink, b"p1", b"hub", true),
    (Step::Unlink, b"p1", b"hub", false),
    (Step::HasPort, b"hub", b"p1", false),
    (Step::HasPort, b"hub", b"p2", true),
    (Step::HasNoOwner, b"p1", b"", true),
    (Step::IsMuted, b"hub", b"S", false),
    (Step::Mute, b"hub", b"S", true),
    (Step::Mute, b"hub", b"S", false),
    (Step::Mute, b"p1", b"S", false),
    (Step::IsMuted, b"hub", b"S", true),
    (Step::IsMuted, b"hub", b"T", false),
    (Step::Unmute, b"hub", b"S", true),
    (Step::Unmute, b"hub", b"S", false),
    (Step::IsMuted, b"hub", b"S", false),
    (Step::Mute, b"hub", b"T", true),
    // Nothing is left of an instance that is deleted.
    (Step::Delete, b"hub", b"", true),
    (Step::Delete, b"hub", b"", false),
    (Step::HasOwner, b"p2", b"hub", false),
    (Step::HasNoOwner, b"p2", b"", true),
    (Step::NewBase, b"hub", b"", true),
    (Step::HasPort, b"hub", b"p2", false),
    (Step::HasOwner, b"p2", b"hub", false),
    (Step::IsMuted, b"hub", b"T", false),
    (Step::Link, b"hub", b"p2", true),
    (Step::HasOwner, b"p2", b"hub", true),
];

// The steps on a network of its own, and how many instances there are then.
fn count_after_steps(rt: &impl Abort, alloc: Global) -> Result<usize, AllocError> {
    let mut net = sample_net(alloc)?;
    try_all(rt, alloc, &mut net, &STEPS)?;
    Ok(net.count())
}

#[test]
fn steps_in_turn(rt: HostRuntime) -> Result<(), AllocError> {
    assert_eq!(rt; count_after_steps(&rt, rt.alloc())?, 3);
    Ok(())
}
