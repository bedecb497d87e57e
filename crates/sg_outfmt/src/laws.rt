// What holds of frames with a path. The functions here do nothing: their contracts are laws.
ghost use Rattle.std.specs.Prelude.{◌≡◌, ◌<◌, ℕ, List, length};
ghost use Rattle.sg_msg.specs.Message.{Content};
ghost use Rattle.sg_macro.specs.declared.part.TemplatePart.{TemplatePart};
ghost use Rattle.sg_template.specs.declared.env.Env.{Env};
ghost use Rattle.sg_template.specs.Path.{path_of};
ghost use Rattle.sg_template.specs.Render.{render_of};
ghost use Rattle.sg_outfmt.specs.declared.shape.Shape.TheVariants.{ByPath};
ghost use Rattle.sg_outfmt.specs.Frame.{frame_of};
ghost use Rattle.sg_outfmt.specs.Packed.{packed, unpacked};

/// What is packed is unpacked again, where the path isn't empty: two paths or texts that differ never
/// make one frame.
pub fn packed_unpacks()
    ensures { (path text : List ℕ) → 0 < length path → unpacked (packed path text) ≡ (path, text) }
{}

/// A frame of `Shape::ByPath` is the path and the text that its two templates give.
pub fn frames_keep_paths()
    ensures { (path text : List TemplatePart) (content : Content) (env : Env)
        → unpacked (frame_of (ByPath path text) content env)
        ≡ (path_of path content env, render_of text content env) }
{}
