// Rewrites with their conditions.
ghost use Rattle.std.specs.Prelude.{◌≡◌, true};
ghost use Rattle.sg_tree.specs.Sound.{name_sound, op_sound};

use sg_filter::Expr;
use sg_msg::is_hard;
use sg_rewrite::Op;

/// A rewrite, with the condition that a message must meet to be changed.
pub struct RewriteRule {
    pub condition: Option<Expr>,
    /// Its names have 1 to 255 bytes and are no macros'.
    pub op: Op,
    pub ghost sound: { op_sound op ≡ true },
}

impl Drop for RewriteRule {
    fn drop(self) {
        let RewriteRule {
            condition: _condition,
            op: _op,
        } = self;
    }
}

fn is_name(name: &[u8]) -> bool
    ensures { result ≡ name_sound name.now }
{
    if name.is_empty() {
        return false;
    }
    (name.len() <= 255) & !is_hard(name)
}

/// Whether a rule may have this rewrite: the name that it sets, unsets or searches, if any, has 1 to 255
/// bytes and is no macro's.
pub fn is_sound(op: &Op) -> bool
    ensures { result ≡ op_sound op.now }
{
    match op {
        Op::Set { name, .. } => is_name(name.bytes()),
        Op::Unset { name } => is_name(name.bytes()),
        Op::Subst { name, .. } => is_name(name.bytes()),
        Op::GroupSet { .. } => true,
        Op::GroupUnset { .. } => true,
        Op::SetTag { .. } => true,
        Op::ClearTag { .. } => true,
    }
}
