// A rewrite as a configuration writes it.

use sg_device::Name;
use sg_pattern::PatternText;
use sg_template::Template;

/// A rewrite as a configuration writes it, without its condition (syslog-ng's administration guide,
/// "Modifying messages using rewrite rules").
pub enum Op {
    /// Gives the name the template's text.
    Set {
        name: Name,
        text: Template,
    },
    /// Takes the name's value away.
    Unset {
        name: Name,
    },
    /// Puts the template's text in the place of what the pattern finds in the name's value: the first,
    /// or with the flag `global` all.
    Subst {
        name: Name,
        pattern: PatternText,
        text: Template,
    },
    /// Gives each name that is set and matches a glob the template's text, in byte order of the names.
    /// `$_` is the value that the name had.
    GroupSet {
        globs: Vec<Name>,
        text: Template,
    },
    /// Takes away the value of each name that matches a glob.
    GroupUnset {
        globs: Vec<Name>,
    },
    /// Adds the tag at the end, where it isn't set.
    SetTag {
        tag: Name,
    },
    /// Takes the tag out.
    ClearTag {
        tag: Name,
    },
}

impl Drop for Op {
    fn drop(self) {
        match self {
            Op::Set {
                name: _name,
                text: _text,
            } => {}
            Op::Unset { name: _name } => {}
            Op::Subst {
                name: _name,
                pattern: _pattern,
                text: _text,
            } => {}
            Op::GroupSet {
                globs: _globs,
                text: _text,
            } => {}
            Op::GroupUnset { globs: _globs } => {}
            Op::SetTag { tag: _tag } => {}
            Op::ClearTag { tag: _tag } => {}
        }
    }
}
