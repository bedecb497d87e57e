// What holds of names and paths. The functions here do nothing: their contracts are laws.
ghost use Rattle.std.specs.Prelude.{◌≡◌, ◌≢◌, ◌<◌, ◌≤◌, ℕ, List, ◌∷◌, length, true, is_some};
ghost use Rattle.sg_msg.specs.Macros.{is_hard};
ghost use Rattle.sg_msg.specs.Message.{Content};
ghost use Rattle.sg_macro.specs.declared.part.TemplatePart.{TemplatePart};
ghost use Rattle.sg_macro.specs.Macros.{macro_of};
ghost use Rattle.sg_template.specs.declared.env.Env.{Env};
ghost use Rattle.std.specs.List.{list_all};
ghost use Rattle.sg_template.specs.Path.{is_inner, name_text, path_of};

/// The names of macros are those that no pair of a message may have.
pub fn macros_are_hard()
    ensures { (name : List ℕ) → is_some (macro_of name) ≡ is_hard name }
{}

/// A path has 1 to 4,095 bytes.
pub fn paths_fit()
    ensures some { (parts : List TemplatePart) (content : Content) (env : Env)
        → 0 < length (path_of parts content env) }
    ensures most { (parts : List TemplatePart) (content : Content) (env : Env)
        → length (path_of parts content env) ≤ 4095 }
{}

/// The text of a macro or of a value in a path is a part of one file's name: it has no `/` and no NUL,
/// and no dot at its front.
pub fn texts_are_names()
    ensures inner { (text : List ℕ) → list_all is_inner (name_text text) ≡ true }
    ensures front { (text bytes : List ℕ) → name_text text ≢ 46 ∷ bytes }
{}
