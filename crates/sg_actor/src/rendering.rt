// The frames of messages.
ghost use Rattle.std.specs.Prelude.{◌≡◌, ◌≢◌, ◌++◌, ◌∷◌, [], length, take, map, OnOk};
ghost use Rattle.sg_device.specs.Frames.{cut, total};
ghost use Rattle.sg_actor.specs.Rendering.{frames_by, frame_by, most_bytes, most_entries, sent_of, until};

use sg_device::{Frames, NoMemory};
use sg_msg::Message;
use sg_outfmt::{Shape, frame};
use sg_template::Env;
use std::alloc::Global;
use std::mem::replace;

/// The frames of a send are so many bytes together, but for the last one, which may pass that.
pub(crate) const ENOUGH: usize = 262_144;

/// How many entries a turn sends at most.
pub(crate) const MOST: usize = 1000;

/// What a destination is set up with.
pub struct DestSpec {
    /// The destination's number.
    pub(crate) dest: u32,
    pub(crate) shape: Shape,
    pub(crate) env: Env,
    /// Whether it is given up at the third failure in a row.
    pub(crate) gives_up: bool,
}

impl Drop for DestSpec {
    fn drop(self) {
        let DestSpec {
            dest: _dest,
            shape: _shape,
            env: _env,
            gives_up: _gives_up,
        } = self;
    }
}

// Appends the frame of a message.
fn append(
    spec: &DestSpec,
    message: &Message,
    bytes: &mut Vec<u8>,
    sizes: &mut Vec<usize>,
) -> Result<(), NoMemory>
    ensures bytes { OnOk result
        (bytes.new.items ≡ bytes.old.items ++ frame_by spec.now message.now) }
    ensures sizes { OnOk result
        (sizes.new.items ≡ sizes.old.items ++ length (frame_by spec.now message.now) ∷ []) }
{
    let before = bytes.len();
    frame(&spec.shape, message, &spec.env, bytes)?;
    sizes.push(bytes.len() - before)?;
    Ok(())
}

// Appends frames of the messages, until they are bytes enough.
fn fill(
    spec: &DestSpec,
    messages: &[Message],
    bytes: &mut Vec<u8>,
    sizes: &mut Vec<usize>,
) -> Result<(), NoMemory>
    requires no_bytes { bytes.old.items ≡ [] }
    requires no_sizes { sizes.old.items ≡ [] }
    ensures whole { OnOk result (total sizes.new.items ≡ length bytes.new.items) }
    ensures frames { OnOk result
        (cut sizes.new.items bytes.new.items
        ≡ until most_bytes (frames_by spec.now messages.now)) }
{
    for message in messages {
        append(spec, message, bytes, sizes)?;
        if bytes.len() >= ENOUGH {
            return Ok(());
        }
    }
    Ok(())
}

fn first(messages: &[Message]) -> &[Message]
    ensures { result.now ≡ take most_entries messages.now }
{
    if messages.len() > MOST {
        &messages[..MOST]
    } else {
        messages
    }
}

/// Puts the frames of the first messages, as many as a turn sends at most, in the place of those that
/// were sent last.
pub(crate) fn render(
    alloc: Global,
    spec: &DestSpec,
    messages: &[Message],
    frames: &mut Frames,
) -> Result<(), NoMemory>
    ensures { OnOk result (frames.new ≡ sent_of spec.now messages.now) }
{
    let (mut bytes, mut sizes) = replace(frames, Frames::new(alloc)).into_parts();
    bytes.clear();
    sizes.clear();
    fill(spec, first(messages), &mut bytes, &mut sizes)?;
    *frames = Frames::from_parts(bytes, sizes);
    Ok(())
}
