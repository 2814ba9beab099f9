//! The texts, with ample memory, beside what another program makes of the same numbers.
ghost use Rattle.std.specs.Prelude.{◌≤◌};

use cb_check::check;
use cb_gen::{log_text, model_text, topology_text};
use cb_line_files::read_topology;
use cb_model::Model;
use cb_syntax::parse;
use std::alloc::{AllocError, Global};
use std::test::Fail;

#[test]
fn the_model_has_three_classes(rt: HostRuntime) -> Result<(), Fail> {
    let text = model_text(rt.alloc())?;
    assert_eq!(rt; text.len(), 550);
    assert!(rt;
        text.as_slice()
            .starts_with(b"class Box {\n  problem Dead;\n")
    );
    assert!(rt;
        text.as_slice()
            .ends_with(b"  rule far: Cut => ends.NoSignal;\n}\n")
    );
    Ok(())
}

const TWO_SITES: &str =
    "create b0 Box\ncreate p0 Port\ncreate q0 Port\ncreate l0 Line\ncreate b1 Box\ncreate p1 Port\ncreate q1 Port\ncreate l1 Line\nlink b0 ports p0\nlink b0 ports q0\nlink l0 ends p0\nlink l0 ends q1\nlink b1 ports p1\nlink b1 ports q1\nlink l1 ends p1\nlink l1 ends q0\n";

#[test]
fn two_sites_are_a_ring(rt: HostRuntime) -> Result<(), Fail> {
    let text = topology_text(rt.alloc(), 2)?;
    assert_eq!(rt; text.as_slice(), TWO_SITES.as_bytes());
    Ok(())
}

#[test]
fn a_log_begins_with_what_is_drawn(rt: HostRuntime) -> Result<(), Fail> {
    let text = log_text(rt.alloc(), 4, 7)?;
    assert_eq!(rt; text.len(), 125_505);
    assert!(rt;
        text.as_slice().starts_with(
            b"{\"at\":1,\"edit\":\"delete x3\"}\n{\"at\":2,\"edit\":\"link l1 ends p1\"}\n"
        )
    );
    assert!(rt;
        text.as_slice().ends_with(
            b"{\"at\":3760,\"from\":\"c2\",\"clear\":\"NoSignal@p2\"}\n{\"at\":3800,\"tick\":true}\n"
        )
    );
    Ok(())
}

// The model, where its text has no fault.
fn made_up_model(alloc: Global) -> Result<Option<Model>, AllocError> {
    let text = model_text(alloc)?;
    let Ok(tree) = parse(alloc, text.as_slice()) else {
        return Ok(None);
    };
    let model = check(alloc, &tree).ok();
    drop(tree);
    Ok(model)
}

// Whether neither the model nor the topology of `sites` sites has a fault.
fn has_no_fault(alloc: Global, sites: u32) -> Result<bool, AllocError>
    requires some { 1 ≤ sites }
    requires few { sites ≤ 256 }
{
    let text = topology_text(alloc, sites)?;
    let Some(model) = made_up_model(alloc)? else {
        return Ok(false);
    };
    let topology = read_topology(alloc, model, text.as_slice()).ok();
    let read = topology.is_some();
    drop(topology);
    Ok(read)
}

#[test]
fn no_size_has_a_fault(rt: HostRuntime) -> Result<(), Fail> {
    for sites in 1..257 {
        let right = has_no_fault(rt.alloc(), sites)?;
        assert!(rt; right, "{sites}");
    }
    Ok(())
}
