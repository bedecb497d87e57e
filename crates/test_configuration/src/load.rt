// What a configuration comes to, in short.
ghost use Rattle.std.specs.Prelude.{◌<◌, ◌^◌, length};

mod paths;
mod plans;

use crate::text::{copied, fault};
use sg_config::{Config, LoadRefusal, load};
use sg_device::NoMemory;
use sg_lex::Token;
use std::alloc::Global;
use std::io;

fn say(alloc: Global, out: &mut Vec<u8>, config: &Config) -> Result<(), NoMemory> {
    plans::say_inlets(alloc, out, config)?;
    plans::say_outlets(alloc, out, config)?;
    plans::say_stores(out, config)?;
    paths::say_forest(alloc, out, &config.forest)
}

fn config(alloc: Global, config: &Config) -> io::Result<Vec<u8>> {
    let mut out = copied(alloc, b"ok")?;
    say(alloc, &mut out, config)?;
    Ok(out)
}

/// What the configuration of these tokens comes to, or what is wrong with it.
pub(crate) fn answer(alloc: Global, tokens: &[Token]) -> io::Result<Vec<u8>>
    requires { length tokens.now < 2 ^ 32 }
{
    let loaded = load(alloc, tokens);
    match &loaded {
        Ok(found) => config(alloc, found),
        Err(LoadRefusal::Bad(found)) => fault(alloc, found),
        Err(LoadRefusal::NoMemory) => copied(alloc, b"no memory"),
    }
}
