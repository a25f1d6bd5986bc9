//! Laws of a run, above the definitions of the reader and the machine. A function here has no code: its contract is the law.
#![tactic(auto)]

ghost use Rattle.replay_laws.specs.ImageLines.{ImageLinesAreDone};

/// The machine refuses no line of the image that the reader let pass: its page can be mapped, and its directory, file, bytes or lock
/// can be made, at the place in the run where the line stands.
pub fn image_lines_are_done()
    ensures { ImageLinesAreDone }
{}
