// Laws. The function here does nothing: its contract is a law.
ghost use Rattle.std.specs.Prelude.{◌≡◌, ℕ, List, map};
ghost use Rattle.sg_msg.specs.Message.{Content};
ghost use Rattle.sg_macro.specs.declared.part.TemplatePart.{TemplatePart};
ghost use Rattle.sg_template.specs.declared.env.Env.{Env};
ghost use Rattle.sg_dynfile.specs.ByPath.{frame_by_path, texts_with_path};
ghost use Rattle.sg_dynfile.specs.Texts.{parted, texts_under};

use sg_outfmt::frames_keep_paths;

/// Of the frames of messages, the texts that stand under a path are those of the messages with that
/// path, in order.
pub fn texts_stand_under_their_paths()
    ensures { (path text : List TemplatePart) (env : Env) (name : List ℕ) (messages : List Content)
        → texts_under name (map parted (map (frame_by_path path text env) messages))
        ≡ texts_with_path path text env name messages }
{
    frames_keep_paths();
}
