//! What the class of an instance has.
ghost use Rattle.std.specs.Prelude.{◌↔◌, ℕ, List, IfSome, IfNone, IsTrue};
ghost use Rattle.cb_model.specs.declared.id.ClassId.{ClassId as Class};
ghost use Rattle.cb_model.specs.declared.id.EventId.{EventId as Event};
ghost use Rattle.cb_model.specs.declared.id.RelId.{RelId as Relation};
ghost use Rattle.cb_model.specs.WellTyped.{IsRelation, WellTyped};
ghost use Rattle.cb_network.specs.Nodes.{IsSymptomNode};
ghost use Rattle.cb_network.specs.Edits.{IsRelationAt, HasRelationAt, IsOneUsedUp, node_name_of};
ghost use Rattle.cb_instances.specs.Net.{IsLiveInstance, IsNamed};
ghost use Rattle.cb_accept.specs.Refusals.{IsClassAt, FitsTarget, IsSymptomAt};

use cb_instances::{InstanceId, Net};
use cb_model::{ClassId, EventId, RelId};

// The instance's class, if it is one of the model's. A class that the model lacks would have nothing.
fn class_at(net: &Net, id: InstanceId) -> Option<ClassId>
    requires { IsLiveInstance net.now id }
    ensures found { IfSome result (IsClassAt net.now id) }
    ensures absent { IfNone result ((class : Class) → ¬ IsClassAt net.now id class) }
    ensures typed { WellTyped net.now.topology.model }
{
    let class = net.class_of(id);
    if (class.0 as usize) < net.model().tables().classes.len() {
        Some(class)
    } else {
        None
    }
}

/// The relation of this name that the instance's class has.
pub(crate) fn relation_at(net: &Net, id: InstanceId, name: &[u8]) -> Option<RelId>
    requires { IsLiveInstance net.now id }
    ensures found { IfSome result (λ (rel : Relation). (a : List ℕ) → IsNamed net.now id a → IsRelationAt net.now.topology a name.now rel) }
    ensures absent { IfNone result ((a : List ℕ) → IsNamed net.now id a → ¬ HasRelationAt net.now.topology a name.now) }
{
    let class = class_at(net, id)?;
    net.model().relation_named(class, name)
}

/// Whether the instance's class is the target of the relation, or a descendant of that.
pub(crate) fn is_of_kind(net: &Net, id: InstanceId, rel: RelId) -> bool
    requires live { IsLiveInstance net.now id }
    requires rel { IsRelation net.now.topology.model rel }
    ensures { (b : List ℕ) → IsNamed net.now id b → IsTrue result ↔ FitsTarget net.now.topology b rel }
{
    let target = net.model().tables().relations.at(rel.0 as usize).target;
    match class_at(net, id) {
        Some(class) => net.model().is_a(class, target),
        None => false,
    }
}

/// Whether the instance may have one link alone by this relation, and has it.
pub(crate) fn is_taken(net: &Net, id: InstanceId, rel: RelId) -> bool
    requires live { IsLiveInstance net.now id }
    requires rel { IsRelation net.now.topology.model rel }
    ensures { (a : List ℕ) → IsNamed net.now id a → IsTrue result ↔ IsOneUsedUp net.now.topology a rel }
{
    let row = net.model().tables().relations.at(rel.0 as usize);
    !row.many && !net.links(id, rel).is_empty()
}

/// The event of this name that is a symptom of the instance's class.
pub(crate) fn symptom_at(net: &Net, id: InstanceId, name: &[u8]) -> Option<EventId>
    requires { IsLiveInstance net.now id }
    ensures found { IfSome result (λ (event : Event). (a : List ℕ) → IsNamed net.now id a → IsSymptomAt net.now id name.now a event) }
    ensures absent { IfNone result ((a : List ℕ) → IsNamed net.now id a → ¬ IsSymptomNode net.now.topology (node_name_of name.now a)) }
{
    let class = class_at(net, id)?;
    let event = net.model().event_named(class, name)?;
    if net.model().marks(class, event).symptom {
        Some(event)
    } else {
        None
    }
}
