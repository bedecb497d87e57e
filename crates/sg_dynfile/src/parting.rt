// The path and the text of a frame.
ghost use Rattle.std.specs.Prelude.{◌≡◌};
ghost use Rattle.sg_dynfile.specs.Texts.{parted, frame_for};

use sg_outfmt::unpacked;

/// The path and the text of a frame, which are all of it.
pub(crate) fn parts_of(frame: &[u8]) -> (&[u8], &[u8])
    ensures parts { record { path = result.0.now; text = result.1.now } ≡ parted frame.now }
    ensures whole { frame_for (parted frame.now) ≡ frame.now }
{
    if let [high, low, ..] = frame {
        let _first = *high;
        let _second = *low;
    }
    unpacked(frame)
}
