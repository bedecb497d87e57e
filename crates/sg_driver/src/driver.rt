// What the drivers of sources and destinations have in common.
ghost use Rattle.std.specs.Prelude.{◌≡◌};
ghost use Rattle.std.specs.Option.{option_copied};
ghost use Rattle.sg_fault.specs.Faults.{least};
ghost use Rattle.sg_driver.specs.Driver as spec;

use crate::limits::STORE_NAME_LIMIT;
use sg_device::Name;
use sg_fault::Placed;
use sg_lex::ConfigKind;
use sg_options::{bad_value, is_called, text_of, value_of};
use sg_outfmt::DriverKind;
use sg_parse_base::{line_of, same_keyword};
use sg_parse_expr::Call;

#[tactic(auto, unfolding(sg_options::specs::Settings::word_of))]
pub fn driver_kind(call: &Call) -> DriverKind
    ensures { result ≡ spec.driver_kind call.now }
{
    let word = call.word.token.text.bytes();
    if same_keyword(word, b"file") {
        return DriverKind::File;
    }
    if same_keyword(word, b"syslog") {
        return DriverKind::Syslog;
    }
    DriverKind::Network
}

/// The path of a file, the host of a destination.
pub fn name_of(call: &Call) -> &[u8]
    ensures { result.now ≡ spec.name_of call.now }
{
    text_of(value_of(call))
}

#[tactic(auto, unfolding(sg_options::specs::Settings::word_of))]
fn missing(call: &Call) -> Placed
    ensures { result ≡ spec.missing call.now }
{
    Placed {
        kind: ConfigKind::MissingOption,
        line: line_of(&call.word.token, call.word.at),
    }
}

/// The fault of what lacks an option that must be given.
pub fn missing_unless(option: Option<&Call>, call: &Call) -> Option<Placed>
    ensures { result ≡ least (spec.missing_unless (option_copied option.entry) call.now) }
{
    match option {
        Some(_) => None,
        None => Some(missing(call)),
    }
}

/// The fault of a store's name that is too long.
pub fn long_name(call: &Call, store: &Option<Name>) -> Option<Placed>
    ensures { result ≡ least (spec.long_names call.now store.now) }
{
    match store {
        Some(name) if name.bytes().len() > STORE_NAME_LIMIT => match value_of(call) {
            Some(spot) => Some(bad_value(spot)),
            None => None,
        },
        _ => None,
    }
}
