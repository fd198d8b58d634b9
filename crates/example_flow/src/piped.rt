//! A flow between two streams of lines.
use crate::ending::{write_pause, write_places};
use crate::lines::{Command, read_line, read_tokens};
use anyhow::{Result, bail};
use kpn_compute::CardBody;
use kpn_flow::{Flow, Pause};
use kpn_net::Token;
use kpn_standard::Standard;
use std::alloc::Global;
use std::io::{self, Write};

pub type CardFlow = Flow<CardBody<Standard>>;

/// How many entries are made at most before the output is written.
const STRETCH: u64 = 100_000;
/// How many tokens one call drains at most.
const BATCH: usize = 64;

/// An input or an output.
#[derive(Drop)]
pub struct Port {
    pub channel: usize,
    pub name: String,
}

/// A flow with named inputs and outputs.
#[derive(Drop)]
pub struct Piped {
    flow: CardFlow,
    inputs: Vec<Port>,
    outputs: Vec<Port>,
}

impl Piped {
    pub fn new(flow: CardFlow, inputs: Vec<Port>, outputs: Vec<Port>) -> Piped {
        Piped {
            flow,
            inputs,
            outputs,
        }
    }

    /// Executes a line, and writes its output.
    pub fn execute_line<W: Write>(
        &mut self,
        alloc: Global,
        line: &str,
        sink: &mut W,
    ) -> Result<()> {
        match read_line(line) {
            Some(Command::Word(word)) => self.pour(word, sink),
            Some(Command::Feed(name)) => self.feed_and_tell(alloc, name, line, sink),
            Some(Command::Drain(name, most)) => self.drain(name, most, sink),
            Some(Command::Advance(most)) => self.advance(most, sink),
            Some(Command::End(name)) => self.end(name),
            None => bail!("a line that says nothing: {line}"),
        }
    }

    fn input_named(&self, name: &str) -> Result<usize> {
        match self.inputs.iter().find(|port| port.name.as_str() == name) {
            Some(port) => Ok(port.channel),
            None => bail!("no input {name}"),
        }
    }

    fn feed_and_tell<W: Write>(
        &mut self,
        alloc: Global,
        name: &str,
        line: &str,
        sink: &mut W,
    ) -> Result<()> {
        let fed = self.feed(alloc, name, line)?;
        Ok(writeln!(sink, "fed {fed}")?)
    }

    /// Feeds the tokens after a line's first two words. Returns for how many there was room.
    fn feed(&mut self, alloc: Global, name: &str, line: &str) -> Result<usize> {
        let channel = self.input_named(name)?;
        let batch = read_tokens(alloc, line)?;
        if !self.flow.may_feed_all(channel, batch.as_slice()) {
            bail!("{name} has ended, or a token is of another sort");
        }
        Ok(self.flow.feed_all(channel, batch.as_slice()))
    }

    fn drain<W: Write>(&mut self, name: &str, most: usize, sink: &mut W) -> Result<()> {
        match self.outputs.iter().find(|port| port.name.as_str() == name) {
            Some(port) => Ok(write_output(&mut self.flow, port, most, sink)?),
            None => bail!("no output {name}"),
        }
    }

    fn advance<W: Write>(&mut self, most: u64, sink: &mut W) -> Result<()> {
        let pause = self.flow.advance(most);
        Ok(write_pause(&self.flow, pause, sink)?)
    }

    fn end(&mut self, name: &str) -> Result<()> {
        let channel = self.input_named(name)?;
        self.flow.end_input(channel);
        Ok(())
    }

    /// Feeds a word into the first input. While that is full, advances the flow.
    fn pour<W: Write>(&mut self, word: u64, sink: &mut W) -> Result<()> {
        let Some(input) = self.inputs.first() else {
            bail!("there is no input");
        };
        let (channel, token) = (input.channel, Token::Word(word));
        for _ in 0..u64::MAX {
            if offer(&mut self.flow, channel, token)? {
                return Ok(());
            }
            let pause = self.flow.advance(STRETCH);
            self.write_outputs(sink)?;
            match pause {
                Pause::Cut | Pause::Blocked => {}
                Pause::Starved | Pause::Over(_) => {
                    if offer(&mut self.flow, channel, token)? {
                        return Ok(());
                    }
                    bail!("the network takes no more words");
                }
            }
        }
        Ok(())
    }

    fn write_outputs<W: Write>(&mut self, sink: &mut W) -> io::Result<()> {
        for port in self.outputs.iter() {
            write_all_of(&mut self.flow, port, sink)?;
        }
        Ok(())
    }

    /// Ends all inputs, advances to the end, and writes how the flow ended.
    pub fn finish<W: Write>(&mut self, alloc: Global, sink: &mut W) -> Result<()> {
        for port in self.inputs.iter() {
            self.flow.end_input(port.channel);
        }
        for _ in 0..u64::MAX {
            let pause = self.flow.advance(STRETCH);
            self.write_outputs(sink)?;
            match pause {
                Pause::Cut | Pause::Blocked => {}
                Pause::Starved | Pause::Over(_) => {
                    write_pause(&self.flow, pause, sink)?;
                    return write_places(alloc, &self.flow, sink);
                }
            }
        }
        Ok(())
    }
}

/// Feeds a token. Returns whether there was room.
fn offer(flow: &mut CardFlow, channel: usize, token: Token) -> Result<bool> {
    if !flow.may_feed(channel, token) {
        bail!("the input has ended, or has another sort");
    }
    Ok(flow.feed(channel, token))
}

/// Writes at most `most` tokens of an output.
fn write_output<W: Write>(
    flow: &mut CardFlow,
    port: &Port,
    most: usize,
    sink: &mut W,
) -> io::Result<()> {
    for _ in 0..most {
        let Some(token) = take(flow, port.channel) else {
            return Ok(());
        };
        write_token(port, token, sink)?;
    }
    Ok(())
}

fn take(flow: &mut CardFlow, channel: usize) -> Option<Token> {
    if !flow.is_output(channel) {
        return None;
    }
    flow.drain(channel)
}

fn write_all_of<W: Write>(flow: &mut CardFlow, port: &Port, sink: &mut W) -> io::Result<()> {
    for _ in 0..u64::MAX {
        let mut buffer = [Token::Word(0); BATCH];
        let count = take_batch(flow, port.channel, &mut buffer);
        for token in buffer.iter().take(count) {
            write_token(port, *token, sink)?;
        }
        if count < BATCH {
            return Ok(());
        }
    }
    Ok(())
}

/// Takes the next tokens of an output, as many as fit the buffer. Returns their number.
fn take_batch(flow: &mut CardFlow, channel: usize, buffer: &mut [Token]) -> usize {
    if !flow.is_output(channel) {
        return 0;
    }
    flow.drain_into(channel, buffer)
}

fn write_token<W: Write>(port: &Port, token: Token, sink: &mut W) -> io::Result<()> {
    match token {
        Token::Word(word) => writeln!(sink, "{} {word}", port.name),
        Token::Flag(flag) => writeln!(sink, "{} {flag}", port.name),
    }
}
