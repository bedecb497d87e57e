// Frames that say to which file they go.
ghost use Rattle.std.specs.Prelude.{◌≡◌, ◌≤◌, ◌<◌, ◌-◌, ◌++◌, OnOk, OnErr, length, drop};
ghost use Rattle.sg_template.specs.Begins.{BeginsWith};
ghost use Rattle.sg_template.specs.Path.{path_of};
ghost use Rattle.sg_template.specs.Render.{render_of};
ghost use Rattle.sg_outfmt.specs.Packed.{length_bytes, packed, unpacked};

use crate::frames::append;
use sg_msg::Message;
use sg_template::{Env, Template};
use std::alloc::AllocError;

pub(crate) fn packed_text(
    path: &Template,
    text: &Template,
    message: &Message,
    env: &Env,
    out: &mut Vec<u8>,
) -> Result<(), AllocError>
    ensures ok { OnOk result (out.new.items ≡ out.old.items
        ++ packed (path_of path.now message.now env.now) (render_of text.now message.now env.now)) }
    ensures err { OnErr result (out.new.items ≡ out.old.items) }
{
    let before = out.len();
    let appended = append_packed(path, text, message, env, out);
    if appended.is_err() {
        out.truncate(before);
    }
    appended
}

#[tactic(auto, using(sg_template::proofs::Appending::appending))]
fn append_packed(
    path: &Template,
    text: &Template,
    message: &Message,
    env: &Env,
    out: &mut Vec<u8>,
) -> Result<(), AllocError>
    ensures ok { OnOk result (out.new.items ≡ out.old.items
        ++ packed (path_of path.now message.now env.now) (render_of text.now message.now env.now)) }
    ensures err { OnErr result (BeginsWith out.old.items out.new.items) }
{
    append_path(path, message, env, out)?;
    text.render(message, env, out)?;
    Ok(())
}

// Appends the path behind its length.
#[tactic(auto, using(sg_template::proofs::Appending::appending, sg_template::proofs::Paths::path_most))]
fn append_path(
    path: &Template,
    message: &Message,
    env: &Env,
    out: &mut Vec<u8>,
) -> Result<(), AllocError>
    ensures ok { OnOk result (out.new.items ≡ out.old.items
        ++ (length_bytes (length (path_of path.now message.now env.now))
        ++ path_of path.now message.now env.now)) }
    ensures err { OnErr result (BeginsWith out.old.items out.new.items) }
{
    let before = out.len();
    append(&[0, 0], out)?;
    path.render_path(message, env, out)?;
    write_length(&mut out[before..]);
    Ok(())
}

// Writes into the first two bytes how many follow.
fn write_length(bytes: &mut [u8])
    requires two { 2 ≤ length bytes.old }
    requires fits { length bytes.old < 65538 }
    ensures { bytes.new ≡ length_bytes (length bytes.old - 2) ++ drop 2 bytes.old }
{
    let len = bytes.len() - 2;
    bytes[0] = (len / 256) as u8;
    bytes[1] = (len % 256) as u8;
}

/// The path of the file that a frame goes to, and its text.
///
/// A frame of `Shape::ByPath` has the length of its path in two bytes, the higher first, then the path
/// and the text. Where that length is 0, or the frame is shorter than it says, the path is empty and
/// the whole frame is text.
pub fn unpacked(frame: &[u8]) -> (&[u8], &[u8])
    ensures { (result.0.now, result.1.now) ≡ unpacked frame.now }
{
    let [high, low, behind @ ..] = frame else {
        return (b"", frame);
    };
    let len = *high as usize * 256 + *low as usize;
    if len == 0 || behind.len() < len {
        return (b"", frame);
    }
    behind.split_at(len)
}
