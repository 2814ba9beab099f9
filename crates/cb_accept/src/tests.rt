//! The limits of nodes, of problems and of symptoms.
use crate::counts::NodeCounts;
use crate::create::are_within;
use cb_network::EditRefusal;

#[test]
fn limits_of_nodes(rt: HostRuntime) {
    let table = [
        (65_536, 8_192, 8_192, None),
        (65_537, 8_193, 8_193, Some(EditRefusal::NodeLimit)),
        (65_536, 8_193, 8_193, Some(EditRefusal::ProblemLimit)),
        (0, 8_192, 8_193, Some(EditRefusal::SymptomLimit)),
    ];
    for (nodes, problems, symptoms, wanted) in table {
        let counts = NodeCounts {
            nodes,
            problems,
            symptoms,
        };
        assert_eq!(rt; are_within(counts).err(), wanted);
    }
}
