ghost use Rattle.std.specs.Prelude.{◌≤◌, length};
ghost use Rattle.gate_vault.specs.inside.Frames.{IsFrameStart};

use crate::start::FrameStart;

/// Judges the first bytes of a frame.
pub fn frame_start(bytes: &[u8]) -> FrameStart
    requires { length bytes.now ≤ 3 }
    ensures start { IsFrameStart bytes.now result }
{
    if bytes.is_empty() {
        return FrameStart::Closed;
    }
    if bytes[0] != 1 {
        return FrameStart::Closed;
    }
    if bytes.len() < 3 {
        return FrameStart::Cut;
    }
    FrameStart::Payload(256 * usize::from(bytes[1]) + usize::from(bytes[2]))
}
