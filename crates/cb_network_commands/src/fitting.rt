//! From a topology and raised nodes to the groups that fit them.
ghost use Rattle.std.specs.Prelude.{◌≡◌, ◌≤◌, ◌<◌, ◌+◌, ℕ, length, IfOk};
ghost use Rattle.std.specs.List.{All, AllZip};
ghost use Rattle.cb_model.specs.Order.{Rises};
ghost use Rattle.cb_model.specs.NodeOrder.{node_cmp};
ghost use Rattle.cb_change.specs.Costs.{IsOpenCost};
ghost use Rattle.cb_decode.specs.Names.{HasName};
ghost use Rattle.cb_outcome.specs.Fits.{IsSecondCalled, NamesGuess};
ghost use Rattle.cb_outcome.specs.Jobs.{PairsGives};
ghost use Rattle.cb_pairs.specs.Fits.{ArePairsRefused};
ghost use Rattle.cb_pairs.specs.Guesses.{IsOfGroups, IsSecondBelow};
ghost use Rattle.cb_report.specs.Text.{bytes_of_text};
ghost use Rattle.cb_topo.specs.Numbered.{topology_of};
ghost use Rattle.cb_network_commands.specs.Fitted.{AreFitted, HaveNames, FindsFits, IsFittedOutput, IsGroupsRefusal};
ghost use Rattle.cb_file_kinds.specs.Ending.{outcome_of};

use cb_burst::SearchedNetwork;
use cb_codes::Groups;
use cb_decode::group_name;
use cb_file_kinds::Output;
use cb_model::{GroupName, List, NodeName};
use cb_pairs::{Guess, PairFault, Pairs, radius};
use cb_report::{Fault, FitLine, FoundFits, Text, fits_text};
use cb_steps::Steps;
use cb_topo::Topology;
use std::alloc::{AllocError, Global};
use std::sync::ledger::Ledger;

/// What `pairs` gives for the raised nodes: the fits, or that there are too many groups.
pub(crate) fn fitting<'w, L: Ledger>(
    alloc: Global,
    topology: Topology,
    raised: &List<NodeName>,
    steps: &mut Steps<L>,
) -> Result<Output<'w>, AllocError>
    requires { Rises node_cmp raised.now }
    ensures gives { IfOk result (λ output. (whole : ℕ) → PairsGives (topology_of topology) raised.now whole (outcome_of output whole)) }
    ensures cost { (cost : ℕ) → IsOpenCost (topology_of topology) cost → steps.new ≤ steps.old + cost }
{
    let network = SearchedNetwork::of(alloc, topology, steps)?;
    let output = fitted(alloc, &network, raised);
    drop(network);
    output
}

// What it gives in a network that was searched.
fn fitted<'w>(
    alloc: Global,
    network: &SearchedNetwork,
    raised: &List<NodeName>,
) -> Result<Output<'w>, AllocError>
    requires { Rises node_cmp raised.now }
    ensures { IfOk result (λ output. (whole : ℕ) → PairsGives (topology_of network.now.network) raised.now whole (outcome_of output whole)) }
{
    let matrix = network.matrix();
    match Pairs::of(alloc, matrix.codes()) {
        Ok(pairs) => listing(alloc, network, &pairs, raised),
        Err(fault) => refused(alloc, fault),
    }
}

// The lines of the fits.
fn listing<'w>(
    alloc: Global,
    network: &SearchedNetwork,
    pairs: &Pairs<'_>,
    raised: &List<NodeName>,
) -> Result<Output<'w>, AllocError>
    requires raised { Rises node_cmp raised.now }
    requires fitted { AreFitted network.now.matrix pairs.now }
    ensures { IfOk result (λ output. IsFittedOutput network.now raised.now (bytes_of_text output.text) output.fault) }
{
    let found = found_fits(alloc, network, pairs, raised)?;
    Ok(Output {
        text: Text::Bytes(fits_text(alloc, &found)?),
        fault: None,
    })
}

// Why there are no pairs.
fn refused<'w>(alloc: Global, fault: PairFault) -> Result<Output<'w>, AllocError>
    ensures { (count : ℕ) → ArePairsRefused count fault → IfOk result (λ output. IsGroupsRefusal count (bytes_of_text output.text) output.fault) }
{
    match fault {
        PairFault::TooManyGroups { groups } => Ok(Output {
            text: Text::Bytes(Vec::new(alloc)),
            fault: Some(Fault::Groups { groups }),
        }),
        PairFault::NoMemory => Err(AllocError),
    }
}

// The fits of the raised nodes, by what their groups are called.
fn found_fits(
    alloc: Global,
    network: &SearchedNetwork,
    pairs: &Pairs<'_>,
    raised: &List<NodeName>,
) -> Result<FoundFits, AllocError>
    requires raised { Rises node_cmp raised.now }
    requires fitted { AreFitted network.now.matrix pairs.now }
    ensures { IfOk result (FindsFits network.now raised.now) }
{
    let matrix = network.matrix();
    let word = network.raised_word(alloc, raised)?;
    let fits = pairs.fits(alloc, &word.word)?;
    let lines = lines_of(alloc, matrix.coded_groups(), &fits.guesses)?;
    Ok(FoundFits {
        raised: word.raised,
        unknown: word.unknown,
        distance: fits.distance,
        radius: radius(pairs.separation()),
        sure: fits.sure,
        fits: lines,
    })
}

// Each guess by what its groups are called.
fn lines_of(
    alloc: Global,
    groups: &Groups,
    guesses: &List<Guess>,
) -> Result<List<FitLine>, AllocError>
    requires names { HaveNames groups.now.groups }
    requires within { All (IsOfGroups (length groups.now.groups)) guesses.now }
    ensures { IfOk result (AllZip (NamesGuess groups.now.groups) guesses.now) }
{
    let mut lines = List::new(alloc);
    for at in 0..guesses.len() {
        lines.push(line_of(alloc, groups, *guesses.at(at))?)?;
    }
    Ok(lines)
}

// A guess by what its groups are called.
fn line_of(alloc: Global, groups: &Groups, guess: Guess) -> Result<FitLine, AllocError>
    requires names { HaveNames groups.now.groups }
    requires within { IsOfGroups (length groups.now.groups) guess }
    ensures { IfOk result (NamesGuess groups.now.groups guess) }
{
    let first = group_name(alloc, groups, guess.first)?;
    let second = called_second(alloc, groups, guess.second)?;
    Ok(FitLine { first, second })
}

// What a second group is called, if there is one.
fn called_second(
    alloc: Global,
    groups: &Groups,
    second: Option<u32>,
) -> Result<Option<GroupName>, AllocError>
    requires names { HaveNames groups.now.groups }
    requires within { IsSecondBelow (length groups.now.groups) second }
    ensures { IfOk result (IsSecondCalled groups.now.groups second) }
{
    match second {
        Some(place) => Ok(Some(group_name(alloc, groups, place)?)),
        None => Ok(None),
    }
}
