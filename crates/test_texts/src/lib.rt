//! Tests of texts: the tokens of configurations and their expansion, records as they are read, written and queued, stamps,
//! templates, frames and reports.
#![tactic(auto)]

#[cfg(test)]
mod codec;
#[cfg(test)]
mod event;
#[cfg(test)]
mod expand;
#[cfg(test)]
mod expand_texts;
#[cfg(test)]
mod frame;
#[cfg(test)]
mod lex;
#[cfg(test)]
mod macros;
#[cfg(test)]
mod msg;
#[cfg(test)]
mod outfmt;
#[cfg(test)]
mod queue;
#[cfg(test)]
mod r3164;
#[cfg(test)]
mod r5424;
#[cfg(test)]
mod r5424_lines;
#[cfg(test)]
mod report;
#[cfg(test)]
mod source;
#[cfg(test)]
mod template;
#[cfg(test)]
mod time;
