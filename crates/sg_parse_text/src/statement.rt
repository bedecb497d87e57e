// One statement.

use sg_parse_obj::Object;
use sg_parse_path::RawLog;

/// A statement of a configuration.
#[derive(Drop)]
pub enum Statement {
    Object(Object),
    Log(RawLog),
}
