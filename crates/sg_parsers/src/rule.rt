// Parsers with the texts that they read.
ghost use Rattle.std.specs.Prelude.{◌≡◌, IfOk, OnOk, OnErr};
ghost use Rattle.sg_parsers.specs.Parsed.{text_of, rule_takes, rule_parsed};

use crate::MessageParser;
use bytes::Bytes;
use sg_device::NoMemory;
use sg_msg::Message;
use sg_template::{Template, own_env};
use std::alloc::Global;

/// The most bytes of a text that are parsed.
const TEXT_LIMIT: usize = 1_048_576;

/// A parser, and the template whose text it reads.
pub struct ParserRule {
    pub text: Template,
    pub parser: MessageParser,
}

impl Drop for ParserRule {
    fn drop(self) {
        let ParserRule {
            text: _text,
            parser: _parser,
        } = self;
    }
}

// The text that is parsed.
#[tactic(auto, unfolding(crate::specs::Parsed::text_of))]
fn text_of(alloc: Global, rule: &ParserRule, message: &Message) -> Result<Bytes, NoMemory>
    ensures { IfOk result (λ text. text ≡ text_of rule.now message.now) }
{
    let mut text = Vec::new(alloc);
    rule.text.render(message, &own_env(None), &mut text)?;
    text.truncate(TEXT_LIMIT);
    Ok(Bytes::from_vec(text)?)
}

impl ParserRule {
    /// Sets what the parser reads in the template's text over the message, and says whether it doesn't refuse
    /// it. The template is rendered with each stamp at its own offset and without a fraction, and STAMP as
    /// DATE; of its text 1,048,576 bytes count. A text that is refused changes nothing, and lack of memory
    /// neither. Other handles of the message say what they said before.
    pub fn apply(&self, alloc: Global, message: &mut Message) -> Result<bool, NoMemory>
        ensures taken { IfOk result (λ taken. taken ≡ rule_takes self.now message.old) }
        ensures ok { OnOk result (message.new ≡ rule_parsed self.now message.old) }
        ensures err { OnErr result (message.new ≡ message.old) }
    {
        let text = text_of(alloc, self, message)?;
        self.parser.apply(alloc, &text, message)
    }

    /// An equal one.
    pub fn share(&self, alloc: Global) -> Result<ParserRule, NoMemory>
        ensures { IfOk result (λ rule. rule ≡ self.now) }
    {
        Ok(ParserRule {
            text: self.text.copy(alloc)?,
            parser: self.parser.share(alloc)?,
        })
    }
}
