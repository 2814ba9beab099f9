//! What is asked for, command by command.
ghost use Rattle.std.specs.Prelude.{◌≡◌, []};
ghost use Rattle.cb_outcome.specs.Asked.{command_of};
ghost use Rattle.cb_outcome.specs.Command.{file_words};
ghost use Rattle.cb_log_commands.specs.Ways.{Ends};
ghost use Rattle.cb_file_kinds.specs.Ending.{wrong};

use cb_chain_commands::explain::explain;
use cb_chain_commands::levels::levels;
use cb_chain_commands::prove::prove;
use cb_file_kinds::deliver;
use cb_io::{Files, Sink};
use cb_log_commands::correlate::{Correlation, correlate};
use cb_log_commands::decode::{DecodeFiles, decode};
use cb_log_commands::grow::grow;
use cb_network_commands::burst::burst;
use cb_network_commands::codebook::codebook;
use cb_network_commands::matrix::matrix;
use cb_network_commands::model::model;
use cb_network_commands::pairs::pairs;
use cb_network_commands::rewind::{RewindFiles, rewind};
use cb_network_commands::verify::verify;
use cb_report::Fault;
use cb_request::Request;
use cb_steps::Steps;
use std::alloc::Global;
use std::sync::ledger::Ledger;

/// Reads and judges the files of a request, makes its output and writes it.
pub(crate) fn perform<'w, F: Files, O: Sink, L: Ledger>(
    alloc: Global,
    request: Request<'w>,
    files: &mut F,
    out: &mut O,
    steps: &mut Steps<L>,
) -> Result<(), Fault<'w>>
    requires range { (command_of request).range }
    ensures ends { Ends (command_of request.entry) (F.tells files.old) (F.tells files.new) (O.tells out.old) (O.tells out.new) (wrong result) }
    ensures unread { file_words (command_of request.entry) ≡ [] → files.new ≡ files.old }
    ensures steps { (command_of request.entry).counts (F.tells files.old) (F.tells files.new) steps.old steps.new }
{
    match request {
        Request::Burst {
            model,
            topology,
            symptoms,
        } => deliver(burst(alloc, files, model, topology, symptoms, steps), out),
        Request::Model { model: name } => deliver(model(alloc, files, name), out),
        Request::Matrix { model, topology } => {
            deliver(matrix(alloc, files, model, topology, steps), out)
        }
        Request::Codebook {
            model,
            topology,
            wish,
        } => deliver(codebook(alloc, files, model, topology, wish, steps), out),
        Request::Verify {
            model,
            topology,
            certificate,
        } => deliver(
            verify(alloc, files, model, topology, certificate, steps),
            out,
        ),
        Request::Correlate {
            model,
            topology,
            log,
            wish,
            window,
        } => {
            let asked = Correlation { wish, window };
            correlate(alloc, files, out, model, topology, log, asked, steps)
        }
        Request::Decode {
            model,
            topology,
            certificate,
            log,
            window,
        } => {
            let names = DecodeFiles {
                model,
                topology,
                book: certificate,
                log,
            };
            decode(alloc, files, out, names, window, steps)
        }
        Request::Pairs {
            model,
            topology,
            symptoms,
        } => deliver(pairs(alloc, files, model, topology, symptoms, steps), out),
        Request::Explain {
            model,
            topology,
            symptoms,
        } => deliver(explain(alloc, files, model, topology, symptoms, steps), out),
        Request::Levels {
            model,
            topology,
            node,
        } => deliver(levels(alloc, files, model, topology, node, steps), out),
        Request::Prove {
            model,
            topology,
            levels: name,
        } => deliver(prove(alloc, files, model, topology, name, steps), out),
        Request::Rewind {
            model,
            topology,
            script,
            depth,
        } => {
            let names = RewindFiles {
                model,
                topology,
                script,
            };
            deliver(rewind(alloc, files, names, depth, steps), out)
        }
        Request::Grow { sites, start } => deliver(grow(alloc, sites, start, steps), out),
    }
}
