//! What a place with a `+` leads to, by a plain program that says the definition of an edge, beside the successors that a graph finds.
ghost use Rattle.std.specs.Prelude.{◌≡◌, ◌<◌, ◌≤◌, ◌↔◌, IsTrue, length};
ghost use Rattle.cb_test_causes.specs.Plain.{IsRun, LeadsOn};

use crate::worked::{graph_of, is_made};
use cb_bits::Row;
use cb_graph::Graph;
use cb_steps::{MayCount, Steps};
use std::alloc::{AllocError, Global};
use std::marker::Brand;
use std::sync::ledger::{Blank, Ledger};

// A plant makes dark what it feeds, what that feeds, and so on. A site feeds others, too, but nothing of its own goes wrong.
const MODEL: &[u8] =
    b"class Site { symptom Dark; relation feeds to Site many inverse fed; relation fed to Site one inverse feeds; } class Plant extends Site { problem Trip; rule all: Trip => feeds+.Dark; }";

const SITES: [u8; 6] = *b"abcdef";

// Sites, which of them are plants, and which feeds which.
struct Case {
    plants: &'static [u8],
    links: &'static [(u8, u8)],
}

const CHAIN: [(u8, u8); 5] = [
    (b'a', b'b'),
    (b'b', b'c'),
    (b'c', b'd'),
    (b'd', b'e'),
    (b'e', b'f'),
];

const CASES: [Case; 5] = [
    Case {
        plants: &SITES,
        links: &CHAIN,
    },
    // A cycle, and one site that it leads to.
    Case {
        plants: &SITES,
        links: &[
            (b'a', b'b'),
            (b'b', b'c'),
            (b'c', b'd'),
            (b'd', b'a'),
            (b'c', b'e'),
        ],
    },
    // Branches.
    Case {
        plants: &SITES,
        links: &[
            (b'a', b'b'),
            (b'a', b'c'),
            (b'b', b'd'),
            (b'b', b'e'),
            (b'c', b'f'),
        ],
    },
    // The one plant is in the middle, and what it feeds are sites.
    Case {
        plants: b"c",
        links: &CHAIN,
    },
    Case {
        plants: &SITES,
        links: &[],
    },
];

// Whether any number of these links lead from one site to another: they do without the first link, or they lead to its start and from its
// end without it.
fn is_run(links: &[(u8, u8)], from: u8, to: u8) -> bool
    ensures { IsTrue result ↔ IsRun links.now from to }
{
    let [(start, end), others @ ..] = links else {
        return from == to;
    };
    is_run(others, from, to) || (is_run(others, from, *start) && is_run(others, *end, to))
}

// Whether a place with the plus leads from one site to another.
fn leads_on(links: &[(u8, u8)], from: u8, to: u8) -> bool
    ensures { IsTrue result ↔ LeadsOn links.now from to }
{
    for (last, next) in links {
        if *next == to && is_run(links, from, *last) {
            return true;
        }
    }
    false
}

// Whether an edit was made for each site.
fn make_sites(alloc: Global, graph: &mut Graph, case: &Case) -> Result<bool, AllocError> {
    let mut made = true;
    for site in SITES {
        let class = if case.plants.contains(&site) {
            "Plant"
        } else {
            "Site"
        };
        let line = format!(in alloc; "create {} {class}", char::from(site))?;
        made &= is_made(alloc, graph, line.as_bytes())?;
    }
    Ok(made)
}

// Whether an edit was made for each link.
fn make_links(alloc: Global, graph: &mut Graph, case: &Case) -> Result<bool, AllocError> {
    let mut made = true;
    for (from, to) in case.links {
        let line = format!(in alloc; "link {} feeds {}", char::from(*from), char::from(*to))?;
        made &= is_made(alloc, graph, line.as_bytes())?;
    }
    Ok(made)
}

// Makes the row what goes wrong where this site trips: nothing, if it is no plant.
fn find<L: Ledger>(graph: &mut Graph, site: u8, row: &mut Row, steps: &mut Steps<L>)
    requires { length graph.old.nodes ≤ length row.old }
    ensures same { graph.new ≡ graph.old }
    ensures length { length row.new ≡ length row.old }
{
    match graph.topology().node_named(b"Trip", &[site]) {
        Some(trip) => graph.successors(trip, row, steps),
        None => row.wipe(),
    }
}

// Whether the row has the node that is dark at this site.
fn has_dark(graph: &Graph, row: &Row, site: u8) -> bool {
    match graph.topology().node_named(b"Dark", &[site]) {
        Some(dark) => (dark.0 as usize) < row.len() && row.get(dark.0 as usize),
        None => false,
    }
}

// Whether the row has just what the plain program says of this site.
fn is_as_plain(graph: &Graph, row: &Row, case: &Case, from: u8) -> bool {
    let mut count = 0;
    for to in SITES {
        let dark = case.plants.contains(&from) && leads_on(case.links, from, to);
        if has_dark(graph, row, to) != dark {
            return false;
        }
        count = usize::from(dark).saturating_add(count);
    }
    row.ones() == count
}

// Whether both programs say the same of each site.
fn agree<L: Ledger>(
    alloc: Global,
    graph: &mut Graph,
    case: &Case,
    steps: &mut Steps<L>,
) -> Result<bool, AllocError> {
    let mut row = Row::zeroed(alloc, graph.topology().node_capacity())?;
    let mut right = true;
    for from in SITES {
        find(graph, from, &mut row, steps);
        right &= is_as_plain(graph, &row, case, from);
    }
    Ok(right)
}

// Makes the sites and the links, and asks both programs.
fn is_right<L: Ledger>(
    rt: &impl MayCount,
    alloc: Global,
    blank: Blank,
    graph: &mut Graph,
    case: &Case,
) -> Result<bool, AllocError>
    requires name { blank.name ≡ L.name }
    requires parts { blank.parts ≡ L.parts }
    requires some { 0 < L.parts }
{
    let mut steps = Steps::<L>::new(rt, blank);
    let made = make_sites(alloc, graph, case)? && make_links(alloc, graph, case)?;
    Ok(made && agree(alloc, graph, case, &mut steps)?)
}

#[test]
fn a_place_with_the_plus_leads_where_its_definition_says(
    rt: HostRuntime,
) -> Result<(), AllocError> {
    let alloc = rt.alloc();
    for case in &CASES {
        let mut graph = graph_of(&rt, alloc, MODEL, &[])?;
        let right = is_right::<Brand>(&rt, alloc, Blank::new(1), &mut graph, case);
        drop(graph);
        assert!(rt; right?, "{:?} {:?}", case.plants, case.links);
    }
    Ok(())
}
