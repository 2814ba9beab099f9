ghost use Rattle.std.specs.Prelude.{◌≡◌, ◌<◌};

use cb_steps::{MayCount, Steps};
use std::marker::Brand;
use std::sync::ledger::{Blank, Ledger};

// The count once two steps were counted.
fn count_after_two<L: Ledger>(rt: &impl MayCount, blank: Blank) -> u64
    requires name { blank.name ≡ L.name }
    requires parts { blank.parts ≡ L.parts }
    requires some { 0 < L.parts }
{
    let mut steps = Steps::<L>::new(rt, blank);
    steps.tick();
    steps.tick();
    steps.count()
}

#[test]
fn two_steps_are_counted(rt: HostRuntime) {
    assert_eq!(rt; count_after_two::<Brand>(&rt, Blank::new(1)), 2);
}
