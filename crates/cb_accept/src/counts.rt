//! How many nodes, problems and symptom nodes there are.
ghost use Rattle.cb_model.specs.declared.tables.Tables.{Tables};
ghost use Rattle.cb_model.specs.WellTyped.{IsClass};
ghost use Rattle.cb_network.specs.Topology.{empty_topology};
ghost use Rattle.cb_accept.specs.Counts.{AreCounts, AreWithin, AreOwn, AreOfOneClass, CountWith, CountWithout};

use cb_model::{ClassId, Model};

/// How many nodes, problems and symptom nodes there are, the muted ones among them.
#[derive(Clone, Copy, PartialEq, Eq)]
pub struct NodeCounts {
    pub nodes: usize,
    pub problems: usize,
    pub symptoms: usize,
}

impl NodeCounts {
    /// Those of a topology without instances.
    pub fn none() -> NodeCounts
        ensures { (tables : Tables) → AreCounts (empty_topology tables) result }
    {
        NodeCounts {
            nodes: 0,
            problems: 0,
            symptoms: 0,
        }
    }

    // What one instance of the class has.
    fn of_class(model: &Model, class: ClassId) -> NodeCounts
        requires { IsClass model.now class }
        ensures own { AreOwn model.now class result }
        ensures few { AreOfOneClass result }
    {
        let _typed = model.tables();
        let events = model.events_of(class).as_slice();
        let mut problems = 0;
        let mut symptoms = 0;
        for event in events {
            let marks = model.marks(class, *event);
            problems += usize::from(marks.problem);
            symptoms += usize::from(marks.symptom);
        }
        NodeCounts {
            nodes: events.len(),
            problems,
            symptoms,
        }
    }

    /// The counts once there is a further instance of the class.
    pub fn with(self, model: &Model, class: ClassId) -> NodeCounts
        requires class { IsClass model.now class }
        requires few { AreWithin self }
        ensures { CountWith model.now self class result }
    {
        let own = NodeCounts::of_class(model, class);
        NodeCounts {
            nodes: self.nodes + own.nodes,
            problems: self.problems + own.problems,
            symptoms: self.symptoms + own.symptoms,
        }
    }

    /// The counts once an instance of the class is gone.
    pub fn without(self, model: &Model, class: ClassId) -> NodeCounts
        requires class { IsClass model.now class }
        ensures { CountWithout model.now self class result }
    {
        let own = NodeCounts::of_class(model, class);
        NodeCounts {
            nodes: self.nodes.saturating_sub(own.nodes),
            problems: self.problems.saturating_sub(own.problems),
            symptoms: self.symptoms.saturating_sub(own.symptoms),
        }
    }
}
