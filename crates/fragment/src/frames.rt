//! Frames in order.

ghost use Rattle.std.specs.Prelude.{◌≡◌};

use rs_frame::Frame;
use std::marker::Model;

/// The frames that a frame was split into, in the order in which they are sent. Contracts see the
/// list of the frames.
#[derive(Debug, Drop)]
pub struct Frames {
    frames: Vec<Frame>,
}

impl Model for Frames {
    ghost use Rattle.std.specs.Prelude.{List};
    ghost use Rattle.rs_frame.specs.declared.frame.Frame.{Frame};

    ghost Value = { List Frame };

    ghost view = { λ f. f.frames.items };
}

impl Frames {
    /// The frames of this vector.
    pub fn from_vec(frames: Vec<Frame>) -> Frames
        ensures { result ≡ frames.items }
    {
        Frames { frames }
    }

    /// The frames, borrowed.
    pub fn as_slice(&self) -> &[Frame]
        ensures { result.now ≡ self.now }
    {
        self.frames.as_slice()
    }

    /// The vector of the frames.
    pub fn into_vec(self) -> Vec<Frame>
        ensures { result.items ≡ self }
    {
        self.frames
    }
}
