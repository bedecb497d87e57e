// How the templates of filters, rewrites and parsers are shown.
ghost use Rattle.std.specs.Prelude.{◌≡◌};
ghost use Rattle.sg_template.specs.Own.{own_env};

use crate::Env;
use sg_device::Name;

/// How the templates of filters, rewrites and parsers are shown: each stamp at its own offset and without
/// a fraction, STAMP as DATE, and this text for `$_`.
pub fn own_env(old: Option<Name>) -> Env
    ensures { result ≡ own_env old }
{
    Env {
        zone: None,
        digits: 0,
        iso: false,
        old,
    }
}
