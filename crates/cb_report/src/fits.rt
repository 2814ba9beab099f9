//! The lines of what fits raised nodes.
ghost use Rattle.std.specs.Prelude.{◌≡◌, ◌++◌, IfOk, OnOk};
ghost use Rattle.std.specs.List.{flat_map};
ghost use Rattle.cb_report.specs.FitsText.{fit_line, fits_numbers, fits_text as text_of_fits, second_text, sure_fits_word};

use crate::pair::push_called;
use crate::piece::push_number;
use cb_model::{GroupName, List};
use std::alloc::{AllocError, Global};

/// One group that fits, or two at once.
#[derive(Drop)]
pub struct FitLine {
    pub first: GroupName,
    pub second: Option<GroupName>,
}

/// What fits raised nodes, in order.
#[derive(Drop)]
pub struct FoundFits {
    /// How many nodes are raised, and how many of them no column.
    pub raised: u64,
    pub unknown: u64,
    /// At how many columns the fits differ from what is raised, and up to how many they are sure.
    pub distance: u32,
    pub radius: u32,
    pub sure: bool,
    pub fits: List<FitLine>,
}

/// What `pairs` prints: a line of numbers, and a line for each fit.
pub fn fits_text(alloc: Global, found: &FoundFits) -> Result<Vec<u8>, AllocError>
    ensures { IfOk result (λ text. text.items ≡ text_of_fits found.now) }
{
    let mut out = Vec::from_slice(alloc, b"pairs ")?;
    push_found(&mut out, found)?;
    Ok(out)
}

// Adds the line of numbers, and a line for each fit.
fn push_found(out: &mut Vec<u8>, found: &FoundFits) -> Result<(), AllocError>
    ensures { OnOk result (out.new.items ≡ out.old.items ++ (fits_numbers found.now ++ flat_map fit_line found.now.fits)) }
{
    push_fits_numbers(out, found)?;
    for fit in found.fits.as_slice() {
        push_fit(out, fit)?;
    }
    Ok(())
}

// Adds the line of numbers.
fn push_fits_numbers(out: &mut Vec<u8>, found: &FoundFits) -> Result<(), AllocError>
    ensures { OnOk result (out.new.items ≡ out.old.items ++ fits_numbers found.now) }
{
    push_number(out, b"raised ", found.raised)?;
    push_number(out, b" unknown ", found.unknown)?;
    push_number(out, b" distance ", u64::from(found.distance))?;
    push_number(out, b" radius ", u64::from(found.radius))?;
    push_number(out, words_before_fits(found.sure), found.fits.len() as u64)?;
    out.extend_from_slice(b"\n")
}

// Adds the line of a fit.
fn push_fit(out: &mut Vec<u8>, fit: &FitLine) -> Result<(), AllocError>
    ensures { OnOk result (out.new.items ≡ out.old.items ++ fit_line fit.now) }
{
    out.extend_from_slice(b"  fit ")?;
    push_called(out, &fit.first)?;
    push_second(out, &fit.second)?;
    out.extend_from_slice(b"\n")
}

// Adds the second group, if there is one.
fn push_second(out: &mut Vec<u8>, second: &Option<GroupName>) -> Result<(), AllocError>
    ensures { OnOk result (out.new.items ≡ out.old.items ++ second_text second.now) }
{
    match second {
        Some(name) => {
            out.extend_from_slice(b" and ")?;
            push_called(out, name)
        }
        None => Ok(()),
    }
}

// Whether it is sure, and what comes before the number of fits.
fn words_before_fits(sure: bool) -> &'static [u8]
    ensures { result.now ≡ sure_fits_word sure }
{
    if sure {
        b" sure fits "
    } else {
        b" unsure fits "
    }
}
