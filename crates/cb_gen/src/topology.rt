//! The topology: sites in a ring.
ghost use Rattle.std.specs.Prelude.{◌≡◌, ◌++◌, ◌<◌, ◌≤◌, IfOk, OnOk};
ghost use Rattle.cb_text.specs.Lines.{HasShortLines};
ghost use Rattle.cb_gen.specs.Topology.{create_line, created, link_line, ring_links, linked_with, of_sites, topology_text as text_of_topology};

use crate::piece::push_number;
use std::alloc::{AllocError, Global};

/// The topology of `sites` sites. No line is longer than a line of a topology may be.
pub fn topology_text(alloc: Global, sites: u32) -> Result<Vec<u8>, AllocError>
    requires some { 1 ≤ sites }
    requires few { sites ≤ 256 }
    ensures text { IfOk result (λ text. text.items ≡ text_of_topology sites) }
    ensures short { IfOk result (λ text. HasShortLines text.items) }
{
    let mut out = Vec::new(alloc);
    push_all_created(&mut out, u64::from(sites))?;
    push_all_linked(&mut out, u64::from(sites))?;
    Ok(out)
}

// Adds the lines that create the instances of all sites.
fn push_all_created(out: &mut Vec<u8>, sites: u64) -> Result<(), AllocError>
    ensures { OnOk result (out.new.items ≡ out.old.items ++ of_sites created sites) }
{
    for site in 0..sites {
        push_created(out, site)?;
    }
    Ok(())
}

// Adds the lines that link all sites.
fn push_all_linked(out: &mut Vec<u8>, sites: u64) -> Result<(), AllocError>
    ensures { OnOk result (out.new.items ≡ out.old.items ++ of_sites (ring_links sites) sites) }
{
    for site in 0..sites {
        push_linked(out, site, (site + 1) % sites)?;
    }
    Ok(())
}

// Adds the lines that create the instances of a site.
fn push_created(out: &mut Vec<u8>, site: u64) -> Result<(), AllocError>
    ensures { OnOk result (out.new.items ≡ out.old.items ++ created site) }
{
    push_create(out, b"b", site, b"Box")?;
    push_create(out, b"p", site, b"Port")?;
    push_create(out, b"q", site, b"Port")?;
    push_create(out, b"l", site, b"Line")
}

// Adds the lines that link the ports of a site with its box, and its line with a port of this site and one of the next.
fn push_linked(out: &mut Vec<u8>, site: u64, next: u64) -> Result<(), AllocError>
    ensures { OnOk result (out.new.items ≡ out.old.items ++ linked_with site next) }
{
    push_link(out, b"b", site, b" ports p", site)?;
    push_link(out, b"b", site, b" ports q", site)?;
    push_link(out, b"l", site, b" ends p", site)?;
    push_link(out, b"l", site, b" ends q", next)
}

// Adds the line that creates an instance.
fn push_create(out: &mut Vec<u8>, kind: &[u8], site: u64, class: &[u8]) -> Result<(), AllocError>
    ensures { OnOk result (out.new.items ≡ out.old.items ++ create_line kind.now site class.now) }
{
    out.extend_from_slice(b"create ")?;
    push_number(out, kind, site)?;
    out.extend_from_slice(b" ")?;
    out.extend_from_slice(class)?;
    out.extend_from_slice(b"\n")
}

// Adds the line that links two instances.
fn push_link(
    out: &mut Vec<u8>,
    from: &[u8],
    site: u64,
    to: &[u8],
    other: u64,
) -> Result<(), AllocError>
    ensures { OnOk result (out.new.items ≡ out.old.items ++ link_line from.now site to.now other) }
{
    out.extend_from_slice(b"link ")?;
    push_number(out, from, site)?;
    push_number(out, to, other)?;
    out.extend_from_slice(b"\n")
}
