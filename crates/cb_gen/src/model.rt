//! The model.
ghost use Rattle.std.specs.Prelude.{◌≡◌, ◌≤◌, IfOk, length};
ghost use Rattle.cb_gen.specs.Model.{model_text as text_of_model};

use std::alloc::{AllocError, Global};

/// The model of boxes, ports and lines. It has at most 16 MiB, as whoever reads a model asks.
pub fn model_text(alloc: Global) -> Result<Vec<u8>, AllocError>
    ensures text { IfOk result (λ text. text.items ≡ text_of_model) }
    ensures small { IfOk result (λ text. length text.items ≤ 16777216) }
{
    Vec::from_slice(alloc, MODEL.as_bytes())
}

const MODEL: &str = "\
class Box {
  problem Dead;
  symptom Silent;
  relation ports to Port many inverse box;
  rule quiet-box: Dead => Silent;
  rule ports-down: Dead => ports.Down;
}
class Port {
  problem Fail;
  event Down;
  symptom NoSignal;
  relation box to Box one inverse ports;
  relation line to Line one inverse ends;
  rule fail: Fail => Down;
  rule down: Down => NoSignal;
  rule peer: Down => line.Drop;
}
class Line {
  problem Cut;
  symptom Drop;
  relation ends to Port many inverse line;
  rule cut: Cut => Drop;
  rule far: Cut => ends.NoSignal;
}
";
