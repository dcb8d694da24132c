// The law of running valid code, on a function that makes nothing.
ghost use Rattle.lucid_code.specs.Laws.{RunsFit};

use crate::Code;

/// For every input, code sends at most 8 outs, of at most 8 numbers each. Cells that fit its arrays remain so, and so do fields within
/// their widths, as those of an input are.
pub fn runs_fit(code: &Code)
    ensures { RunsFit code.now }
{
    let _valid = code.ops();
}
