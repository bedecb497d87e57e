// What is wrong with a template.
ghost use Rattle.std.specs.Prelude.{◌≡◌};
ghost use Rattle.sg_macro.specs.declared.fault.TemplateFault.TheVariants.{NoMemory as TemplateNoMemory};

use std::alloc::AllocError;
use thiserror::Error;

/// Why a text is no template.
#[derive(Clone, Copy, Debug, PartialEq, Eq, Drop, Error)]
pub enum TemplateFault {
    /// A `${` has no `}`.
    #[error("template brace not closed")]
    OpenBrace,
    /// A `$(` begins a template function, which isn't supported.
    #[error("template function")]
    Function,
    #[error("no memory")]
    NoMemory,
}

impl From<AllocError> for TemplateFault {
    ghost from_gives = { λ _ fault. fault ≡ TemplateNoMemory };

    fn from(_: AllocError) -> Self {
        TemplateFault::NoMemory
    }
}
