//! The table of commands.
ghost use Rattle.std.specs.Prelude.{◌≡◌, ◌∷◌};
ghost use Rattle.cb_request.specs.Commands.{request_of_arguments, texts, request_of, burst_of, model_of, matrix_of, codebook_of, verify_of, decode_of, correlate_of, grow_of, pairs_of, explain_of, levels_of, prove_of, rewind_of};

use crate::file_name::FileName;
use crate::node_word::NodeWord;
use crate::numbers::{depth_in, sites_in, start_in, window_in, wish_in};
use crate::request::Request;

impl<'w> Request<'w> {
    /// What the words of the command line ask for, if they ask for something.
    pub fn of(words: &'w [String]) -> Option<Request<'w>>
        ensures { result ≡ request_of_arguments words.now }
    {
        match words.split_first() {
            Some((command, words)) => read(command.as_str(), words),
            None => None,
        }
    }
}

// What the words after a command ask for.
fn read<'w>(command: &str, words: &'w [String]) -> Option<Request<'w>>
    ensures { result ≡ request_of (command.now ∷ texts words.now) }
{
    match command {
        "burst" => burst(words),
        "model" => model(words),
        "matrix" => matrix(words),
        "codebook" => codebook(words),
        "verify" => verify(words),
        "decode" => decode(words),
        "correlate" => correlate(words),
        "grow" => grow(words),
        "pairs" => pairs(words),
        "explain" => explain(words),
        "levels" => levels(words),
        "prove" => prove(words),
        "rewind" => rewind(words),
        _ => None,
    }
}

fn burst<'w>(words: &'w [String]) -> Option<Request<'w>>
    ensures { result ≡ burst_of (texts words.now) }
{
    match words {
        [model, topology, symptoms] => Some(Request::Burst {
            model: FileName(model.as_str()),
            topology: FileName(topology.as_str()),
            symptoms: FileName(symptoms.as_str()),
        }),
        _ => None,
    }
}

fn model<'w>(words: &'w [String]) -> Option<Request<'w>>
    ensures { result ≡ model_of (texts words.now) }
{
    match words {
        [model] => Some(Request::Model {
            model: FileName(model.as_str()),
        }),
        _ => None,
    }
}

fn matrix<'w>(words: &'w [String]) -> Option<Request<'w>>
    ensures { result ≡ matrix_of (texts words.now) }
{
    match words {
        [model, topology] => Some(Request::Matrix {
            model: FileName(model.as_str()),
            topology: FileName(topology.as_str()),
        }),
        _ => None,
    }
}

fn codebook<'w>(words: &'w [String]) -> Option<Request<'w>>
    ensures { result ≡ codebook_of (texts words.now) }
{
    match words {
        [model, topology, distance] => Some(Request::Codebook {
            model: FileName(model.as_str()),
            topology: FileName(topology.as_str()),
            wish: wish_in(distance.as_str())?,
        }),
        _ => None,
    }
}

fn verify<'w>(words: &'w [String]) -> Option<Request<'w>>
    ensures { result ≡ verify_of (texts words.now) }
{
    match words {
        [model, topology, certificate] => Some(Request::Verify {
            model: FileName(model.as_str()),
            topology: FileName(topology.as_str()),
            certificate: FileName(certificate.as_str()),
        }),
        _ => None,
    }
}

fn decode<'w>(words: &'w [String]) -> Option<Request<'w>>
    ensures { result ≡ decode_of (texts words.now) }
{
    match words {
        [model, topology, certificate, log, window] => Some(Request::Decode {
            model: FileName(model.as_str()),
            topology: FileName(topology.as_str()),
            certificate: FileName(certificate.as_str()),
            log: FileName(log.as_str()),
            window: window_in(window.as_str())?,
        }),
        _ => None,
    }
}

fn correlate<'w>(words: &'w [String]) -> Option<Request<'w>>
    ensures { result ≡ correlate_of (texts words.now) }
{
    match words {
        [model, topology, log, distance, window] => Some(Request::Correlate {
            model: FileName(model.as_str()),
            topology: FileName(topology.as_str()),
            log: FileName(log.as_str()),
            wish: wish_in(distance.as_str())?,
            window: window_in(window.as_str())?,
        }),
        _ => None,
    }
}

fn grow<'w>(words: &'w [String]) -> Option<Request<'w>>
    ensures { result ≡ grow_of (texts words.now) }
{
    match words {
        [sites, start] => Some(Request::Grow {
            sites: sites_in(sites.as_str())?,
            start: start_in(start.as_str())?,
        }),
        _ => None,
    }
}

fn pairs<'w>(words: &'w [String]) -> Option<Request<'w>>
    ensures { result ≡ pairs_of (texts words.now) }
{
    match words {
        [model, topology, symptoms] => Some(Request::Pairs {
            model: FileName(model.as_str()),
            topology: FileName(topology.as_str()),
            symptoms: FileName(symptoms.as_str()),
        }),
        _ => None,
    }
}

fn explain<'w>(words: &'w [String]) -> Option<Request<'w>>
    ensures { result ≡ explain_of (texts words.now) }
{
    match words {
        [model, topology, symptoms] => Some(Request::Explain {
            model: FileName(model.as_str()),
            topology: FileName(topology.as_str()),
            symptoms: FileName(symptoms.as_str()),
        }),
        _ => None,
    }
}

fn levels<'w>(words: &'w [String]) -> Option<Request<'w>>
    ensures { result ≡ levels_of (texts words.now) }
{
    match words {
        [model, topology, node] => Some(Request::Levels {
            model: FileName(model.as_str()),
            topology: FileName(topology.as_str()),
            node: NodeWord::of(node.as_str())?,
        }),
        _ => None,
    }
}

fn prove<'w>(words: &'w [String]) -> Option<Request<'w>>
    ensures { result ≡ prove_of (texts words.now) }
{
    match words {
        [model, topology, levels] => Some(Request::Prove {
            model: FileName(model.as_str()),
            topology: FileName(topology.as_str()),
            levels: FileName(levels.as_str()),
        }),
        _ => None,
    }
}

fn rewind<'w>(words: &'w [String]) -> Option<Request<'w>>
    ensures { result ≡ rewind_of (texts words.now) }
{
    match words {
        [model, topology, script, depth] => Some(Request::Rewind {
            model: FileName(model.as_str()),
            topology: FileName(topology.as_str()),
            script: FileName(script.as_str()),
            depth: depth_in(depth.as_str())?,
        }),
        _ => None,
    }
}
