//! Builds a description.
ghost use Rattle.std.specs.Prelude.{◌≡◌, ◌↔◌, [], false, pos, Err, IfOk, IfErr, string_bytes};
ghost use Rattle.std.specs.List.{list_all};
ghost use Rattle.kpn_model.specs.Valid.{IsValid};
ghost use Rattle.kpn_model.specs.declared.limits.TheConstants.{DEFAULT_BUDGET};
ghost use Rattle.kpn_sketch.specs.Description.{Describes};
ghost use Rattle.kpn_net.specs.Sketched.{IsNetOfSketch, IsSketchFault};
ghost use Rattle.kpn_message.specs.EveryFault.{IsMessage};
ghost use Rattle.kpn_builder.specs.Built.{GrowsTo, channel_of, process_of, blank_sketch, adding_channel, adding_process};
ghost use Rattle.kpn_builder.specs.Written.{has_said_tokens};

use crate::text::{TextFault, to_toml};
use kpn_message::message_of_sketch;
use kpn_model::limits::DEFAULT_BUDGET;
use kpn_model::{Kinds, Listed, Sort, Text};
use kpn_net::{Check, Net};
use kpn_sketch::{ChannelSketch, NetFault, ProcessSketch, Sketch, TokenSketch};
use std::alloc::{AllocError, Global};
use std::marker::Model;

/// A new channel: its name and the processes that it leads from and to. By default it leads from output 0 to
/// input 0, carries words, has capacity 1 and no start tokens.
#[derive(Clone, Copy)]
pub struct NewChannel<'a> {
    name: &'a str,
    from: &'a str,
    to: &'a str,
    out: i64,
    input: i64,
    sort: Sort,
    capacity: i64,
    tokens: &'a [TokenSketch],
}

impl<'a> NewChannel<'a> {
    /// Makes a channel of words from output 0 to input 0, with capacity 1.
    ///
    /// ```text
    /// let wire = NewChannel::new("c0", "src", "snk");
    /// made.channel(wire).expect(rt, "memory");
    /// ```
    pub fn new(name: &'a str, from: &'a str, to: &'a str) -> NewChannel<'a>
        ensures names { (result.name.now ≡ name.now) × (result.from.now ≡ from.now) × (result.to.now ≡ to.now) }
        ensures ports { (result.out ≡ pos 0) × (result.input ≡ pos 0) }
        ensures sort { result.sort ≡ Sort.Words }
        ensures capacity { result.capacity ≡ pos 1 }
        ensures tokens { result.tokens.now ≡ [] }
    {
        NewChannel {
            name,
            from,
            to,
            out: 0,
            input: 0,
            sort: Sort::Words,
            capacity: 1,
            tokens: &[],
        }
    }

    /// Returns this channel from this output of its writer, counted from 0.
    ///
    /// ```text
    /// made.channel(NewChannel::new("later", "cp", "late").out(1).capacity(4))?;
    /// ```
    pub fn out(self, out: i64) -> NewChannel<'a>
        ensures { result ≡ record self.entry { out = out } }
    {
        NewChannel { out, ..self }
    }

    /// Returns this channel to this input of its reader, counted from 0.
    ///
    /// ```text
    /// let asked = NewChannel::new("f", "dv", "dm")
    ///     .input(1)
    ///     .flags()
    ///     .tokens(&flag);
    /// ```
    pub fn input(self, input: i64) -> NewChannel<'a>
        ensures { result ≡ record self.entry { input = input } }
    {
        NewChannel { input, ..self }
    }

    /// Returns this channel for flags.
    ///
    /// ```text
    /// let asked = NewChannel::new("f", "dv", "dm")
    ///     .input(1)
    ///     .flags()
    ///     .tokens(&flag);
    /// ```
    pub fn flags(self) -> NewChannel<'a>
        ensures { result ≡ record self.entry { sort = Sort.Flags } }
    {
        NewChannel {
            sort: Sort::Flags,
            ..self
        }
    }

    /// Returns this channel with this capacity, in tokens.
    ///
    /// ```text
    /// made.channel(NewChannel::new("x", "src", "x3").capacity(4))?;
    /// ```
    pub fn capacity(self, capacity: i64) -> NewChannel<'a>
        ensures { result ≡ record self.entry { capacity = capacity } }
    {
        NewChannel { capacity, ..self }
    }

    /// Returns this channel with these start tokens, in reading order.
    ///
    /// ```text
    /// let words = [TokenSketch::Integer(5), TokenSketch::Integer(6)];
    /// let held = NewChannel::new("c", "src", "dm").capacity(3).tokens(&words);
    /// ```
    pub fn tokens(self, tokens: &'a [TokenSketch]) -> NewChannel<'a>
        ensures { result ≡ record self.entry { tokens = tokens.entry } }
    {
        NewChannel { tokens, ..self }
    }

    fn to_sketch(self, alloc: Global) -> Result<ChannelSketch, AllocError>
        ensures { IfOk result (λ c. c ≡ channel_of self.entry) }
    {
        Ok(ChannelSketch {
            name: text_of(alloc, self.name)?,
            from: text_of(alloc, self.from)?,
            to: text_of(alloc, self.to)?,
            out: self.out,
            input: self.input,
            sort: self.sort,
            capacity: self.capacity,
            tokens: Listed::new(Vec::from_slice(alloc, self.tokens)?),
        })
    }
}

/// A growing description of version 2. Contracts see it as the sketch of its text.
#[derive(Drop)]
pub struct Builder {
    alloc: Global,
    sketch: Sketch,
}

impl Model for Builder {
    ghost use Rattle.std.specs.Prelude.{◌≡◌, pos};
    ghost use Rattle.kpn_sketch.specs.declared.sketch.Sketch.{Sketch as SketchV};

    ghost Value = { SketchV };

    ghost view = { λ b. b.sketch };

    ghost invariant = { λ b. b.sketch.version ≡ pos 2 };
}

impl Builder {
    /// Makes a description without processes and channels, with a budget of 10,000 entries and a step of 1.
    ///
    /// ```text
    /// let mut made = Builder::new(alloc);
    /// ```
    pub fn new(alloc: Global) -> Builder
        ensures { result ≡ blank_sketch }
    {
        Builder {
            alloc,
            sketch: Sketch {
                version: 2,
                budget: i64::from(DEFAULT_BUDGET),
                step: 1,
                processes: Listed::new(Vec::new(alloc)),
                channels: Listed::new(Vec::new(alloc)),
            },
        }
    }

    /// Sets the budget, in entries of a run.
    ///
    /// ```text
    /// made.set_budget(2_000_000);
    /// ```
    pub fn set_budget(&mut self, budget: i64)
        ensures { self.new ≡ record self.old { budget = budget } }
    {
        self.sketch.budget = budget;
    }

    /// Sets the step: the tokens that a growth adds to a capacity.
    ///
    /// ```text
    /// made.set_step(2);
    /// ```
    pub fn set_step(&mut self, step: i64)
        ensures { self.new ≡ record self.old { step = step } }
    {
        self.sketch.step = step;
    }

    /// Adds a process after all others, unchecked. Errors: out of memory; nothing has then changed.
    ///
    /// ```text
    /// made.process("src", "count", &[1, 8])?;
    /// ```
    pub fn process(&mut self, name: &str, kind: &str, args: &[i64]) -> Result<(), AllocError>
        ensures { GrowsTo (adding_process self.old (process_of name.now kind.now args.now)) self.old self.new result }
    {
        let process = process_in(self.alloc, name, kind, args)?;
        self.sketch.processes.push(process)
    }

    /// Adds a channel after all others, unchecked. Errors: out of memory; nothing has then changed.
    ///
    /// ```text
    /// made.channel(NewChannel::new("x", "src", "x3").capacity(4))?;
    /// ```
    pub fn channel(&mut self, channel: NewChannel<'_>) -> Result<(), AllocError>
        ensures { GrowsTo (adding_channel self.old (channel_of channel.entry)) self.old self.new result }
    {
        let channel = channel.to_sketch(self.alloc)?;
        self.sketch.channels.push(channel)
    }

    /// Returns the sketch that was built.
    pub fn sketch(&self) -> &Sketch
        ensures { result.now ≡ self.now }
    {
        &self.sketch
    }

    /// Makes the network of the sketch, like `Net::check`. The sketch stays.
    ///
    /// Errors: the first fault of the sketch, or `Memory`, if out of memory.
    ///
    /// ```text
    /// Ok(made.check()?)
    /// ```
    pub fn check<K: Kinds>(&self) -> Result<Net<K>, NetFault>
        ensures ok { IfOk result (IsNetOfSketch K.named K.signature self.now) }
        ensures valid { IfOk result (IsValid K.signature) }
        ensures fault { IfErr result (IsSketchFault K.named K.signature self.now) }
    {
        Net::<K>::check(self.alloc, &self.sketch)
    }

    /// Returns what is wrong and where, with the caller's names, on one line. `kinds` names the existing
    /// kinds. There is no message for `Memory`, which says all, nor if out of memory.
    ///
    /// ```text
    /// if let Some(message) = made.message::<Standard>(fault, KINDS) {
    ///     let _ = eprintln!(rt; "{message}");
    /// }
    /// ```
    pub fn message<K: Kinds>(&self, fault: NetFault, kinds: &str) -> Option<String>
        ensures { IsMessage fault result }
    {
        message_of_sketch::<K>(self.alloc, &self.sketch, fault, kinds)
    }

    /// Writes the description: reading it gives the same sketch.
    ///
    /// Errors: `Version` exactly if a start token is a word by its value; `Memory` if out of memory.
    ///
    /// ```text
    /// let text = made.to_toml()?;
    /// let _ = print!(rt; "{text}");
    /// ```
    pub fn to_toml(&self) -> Result<String, TextFault>
        ensures text { IfOk result (λ text. Describes (string_bytes text) self.now) }
        ensures version { (result ≡ Err TextFault.Version) ↔ (list_all has_said_tokens self.now.channels ≡ false) }
    {
        to_toml(self.alloc, &self.sketch)
    }
}

fn text_of(alloc: Global, text: &str) -> Result<Text, AllocError>
    ensures { IfOk result (λ t. t ≡ text.now) }
{
    Ok(Text::new(String::from_str(alloc, text)?))
}

fn process_in(
    alloc: Global,
    name: &str,
    kind: &str,
    args: &[i64],
) -> Result<ProcessSketch, AllocError>
    ensures { IfOk result (λ p. p ≡ process_of name.now kind.now args.now) }
{
    Ok(ProcessSketch {
        name: text_of(alloc, name)?,
        kind: text_of(alloc, kind)?,
        args: Listed::new(Vec::from_slice(alloc, args)?),
    })
}
