//! Networks.
ghost use Rattle.std.specs.Prelude.{◌≡◌, ◌<◌, IfOk, IfSome, IsSome, Some, length, slice_get, option_map};
ghost use Rattle.kpn_model.specs.Network.{card_of, channel_of, in_of, number_of_channel, out_of};
ghost use Rattle.kpn_model.specs.Valid.{IsValid};
ghost use Rattle.kpn_network.specs.Parts.{network_of};
ghost use Rattle.kpn_network.specs.Ports.{Finds};

use crate::ports::{Ports, find_in, find_out, table_of};
use kpn_model::{Card, Channel, Ends, Kinds, Process, Sort, Token};
use std::alloc::{AllocError, Global};
use std::marker::{Model, PhantomData};

/// The parts of a network: processes, channels, the budget of a run in entries, the step of a growth, and the
/// ceiling of capacities. A channel names a process by its place in the list.
#[derive(Drop)]
pub struct Parts {
    pub processes: Vec<Process>,
    pub channels: Vec<Channel>,
    pub budget: u64,
    pub step: usize,
    pub ceiling: usize,
}

/// A valid network of processes of one family of kinds: each port of each process is the end of exactly one
/// channel, of its sort (Kahn 1974: a channel has one writer and one reader). Processes and channels are
/// numbered from 0 in the order of the text.
///
/// `Check` of `kpn_net` makes one of a sketch. A process or channel number that is passed to a call must be
/// below `processes()` or `channels()`.
pub struct Net<K: Kinds> {
    processes: Vec<Process>,
    channels: Vec<Channel>,
    ports: Vec<Ports>,
    budget: u64,
    step: usize,
    ceiling: usize,
    kinds: PhantomData<K>,
}

// Written out, so that each drop is one call, proved once. Else owners' proofs would mostly drop its fields.
impl<K: Kinds> Drop for Net<K> {
    fn drop(self) {
        let Net {
            processes: _,
            channels: _,
            ports: _,
            budget: _,
            step: _,
            ceiling: _,
            kinds: _,
        } = self;
    }
}

impl<K: Kinds> Model for Net<K> {
    ghost use Rattle.kpn_model.specs.Network.{Network};

    ghost Value = { Network };

    ghost use Rattle.std.specs.Prelude.{length};
    ghost use Rattle.kpn_model.specs.Valid.{IsValid};
    ghost use Rattle.kpn_network.specs.Ports.{HasPorts};

    ghost view = { λ n. record { processes = n.processes.items; channels = n.channels.items; budget = n.budget; step = n.step; ceiling = n.ceiling } };

    ghost invariant = { λ n. IsValid K.signature (record { processes = n.processes.items; channels = n.channels.items; budget = n.budget; step = n.step; ceiling = n.ceiling }) × HasPorts n.channels.items (length n.processes.items) n.ports.items };
}

impl<K: Kinds> Net<K> {
    /// Makes a network of valid parts. Processes and channels keep their order, and so their numbers.
    ///
    /// Errors: out of memory, for the table of the channel at each port. The parts are then dropped.
    pub fn of_parts(alloc: Global, parts: Parts) -> Result<Net<K>, AllocError>
        requires { IsValid K.signature (network_of parts) }
        ensures { IfOk result (λ n. n ≡ network_of parts) }
    {
        let ports = table_of(alloc, parts.channels.as_slice(), parts.processes.len())?;
        Ok(Net {
            processes: parts.processes,
            channels: parts.channels,
            ports,
            budget: parts.budget,
            step: parts.step,
            ceiling: parts.ceiling,
            kinds: PhantomData,
        })
    }

    /// Returns the number of processes, 1 to 64.
    ///
    /// ```text
    /// for process in 0..net.processes() {
    ///     let card = net.card(process);
    /// ```
    pub fn processes(&self) -> usize
        ensures count { result ≡ length self.now.processes }
        ensures valid { IsValid K.signature self.now }
    {
        self.processes.len()
    }

    /// Ghost lemma: the network is valid.
    pub fn assure_valid(&self)
        ensures valid { IsValid K.signature self.now }
    {
        let _ = &self.processes;
    }

    /// Returns the processes, in order.
    pub fn process_list(&self) -> &[Process]
        ensures { result.now ≡ self.now.processes }
    {
        self.processes.as_slice()
    }

    /// Returns the channels, in order.
    pub fn channel_list(&self) -> &[Channel]
        ensures { result.now ≡ self.now.channels }
    {
        self.channels.as_slice()
    }

    /// Returns the number of channels, 0 to 256.
    pub fn channels(&self) -> usize
        ensures { result ≡ length self.now.channels }
    {
        self.channels.len()
    }

    /// Returns the card of process `p`, which has a signature.
    pub fn card(&self, p: usize) -> Card
        requires { p < length self.now.processes }
        ensures is { result ≡ card_of self.now p }
        ensures signed { IsSome (K.signature result) }
    {
        self.processes[p].card
    }

    /// Returns the name of process `p`: 1 to 16 characters, unique among processes.
    ///
    /// ```text
    /// if process < net.processes() {
    ///     write!(sink, "process {} ", net.process_name(process))?;
    /// }
    /// ```
    pub fn process_name(&self, p: usize) -> &str
        requires { p < length self.now.processes }
        ensures { option_map (λ x. x.name) (slice_get self.now.processes p) ≡ Some result.now }
    {
        self.processes[p].name.as_str()
    }

    /// Returns the name of channel `c`: 1 to 16 characters, unique among channels.
    ///
    /// ```text
    /// Place::Reads(channel) if *channel < net.channels() => {
    ///     writeln!(sink, "reads {}", net.channel_name(*channel))?;
    /// }
    /// ```
    pub fn channel_name(&self, c: usize) -> &str
        requires { c < length self.now.channels }
        ensures { option_map (λ x. x.name) (slice_get self.now.channels c) ≡ Some result.now }
    {
        self.channels[c].name.as_str()
    }

    /// Returns the number of the channel with this name; `None` if no channel has it.
    ///
    /// ```text
    /// let Some(channel) = net.find_channel(word) else {
    ///     bail!("no channel {word}");
    /// };
    /// ```
    pub fn find_channel(&self, name: &str) -> Option<usize>
        ensures is { result ≡ number_of_channel self.now name.now }
        ensures within { IfSome result (λ c. c < length self.now.channels) }
    {
        self.channels.iter().position(|c| c.name.as_str() == name)
    }

    /// Returns the two ends of channel `c`: ports of processes of this network.
    pub fn ends(&self, c: usize) -> Ends
        requires { c < length self.now.channels }
        ensures writer { result.writer ≡ (channel_of self.now c).writer }
        ensures out { result.out ≡ (channel_of self.now c).out }
        ensures reader { result.reader ≡ (channel_of self.now c).reader }
        ensures input { result.input ≡ (channel_of self.now c).input }
        ensures writes { result.writer < length self.now.processes }
        ensures reads { result.reader < length self.now.processes }
    {
        let channel = &self.channels[c];
        Ends {
            writer: channel.writer,
            out: channel.out,
            reader: channel.reader,
            input: channel.input,
        }
    }

    /// Returns the sort of channel `c`, which is that of the ports at its ends.
    pub fn sort(&self, c: usize) -> Sort
        requires { c < length self.now.channels }
        ensures { result ≡ (channel_of self.now c).sort }
    {
        self.channels[c].sort
    }

    /// Returns the starting capacity of channel `c`, in tokens: 1 to the ceiling.
    pub fn capacity(&self, c: usize) -> usize
        requires { c < length self.now.channels }
        ensures { result ≡ (channel_of self.now c).capacity }
    {
        self.channels[c].capacity
    }

    /// Returns the start tokens of channel `c`, in reading order: at most its capacity, all of its sort.
    pub fn tokens(&self, c: usize) -> &[Token]
        requires { c < length self.now.channels }
        ensures { result.now ≡ (channel_of self.now c).tokens }
    {
        self.channels[c].tokens.as_slice()
    }

    /// Returns the budget in entries: a run ends once its history has that many or up to two more. It is 1 to
    /// 1,000,000 if the ceiling is at most 65,535, else 1 to 2,000,000.
    pub fn budget(&self) -> u64
        ensures { result ≡ self.now.budget }
    {
        self.budget
    }

    /// Returns how many tokens a growth adds to a channel's capacity: 1 to 1,024 (Parks 1995 enlarges a full
    /// channel at an artificial deadlock).
    pub fn step(&self) -> usize
        ensures { result ≡ self.now.step }
    {
        self.step
    }

    /// Returns the capacity beyond which no channel grows, in tokens: 65,535 in version 1 of the description,
    /// 1,000,000 in version 2.
    pub fn ceiling(&self) -> usize
        ensures { result ≡ self.now.ceiling }
    {
        self.ceiling
    }

    /// Returns the channel at input `port` of process `p`; `None` if there is no such process or input.
    pub fn in_of(&self, p: usize, port: usize) -> Option<usize>
        ensures { Finds (length self.now.channels) (in_of self.now p port) result }
    {
        if p < self.ports.len() {
            self.input_at(p, port)
        } else {
            find_in(self.channels.as_slice(), p, port)
        }
    }

    /// Returns the channel at input `port` of process `p`; `None` if it has no such input. Unlike `in_of` it doesn't
    /// compare `p`.
    #[inline(always)]
    pub fn input_at(&self, p: usize, port: usize) -> Option<usize>
        requires process { p < length self.now.processes }
        ensures { Finds (length self.now.channels) (in_of self.now p port) result }
    {
        if port < 3 {
            self.ports[p].ins[port]
        } else {
            find_in(self.channels.as_slice(), p, port)
        }
    }

    /// Returns the channel at output `port` of process `p`; `None` if there is no such process or output.
    pub fn out_of(&self, p: usize, port: usize) -> Option<usize>
        ensures { Finds (length self.now.channels) (out_of self.now p port) result }
    {
        if p < self.ports.len() {
            self.output_at(p, port)
        } else {
            find_out(self.channels.as_slice(), p, port)
        }
    }

    /// Returns the channel at output `port` of process `p`; `None` if it has no such output. Unlike `out_of` it
    /// doesn't compare `p`.
    #[inline(always)]
    pub fn output_at(&self, p: usize, port: usize) -> Option<usize>
        requires process { p < length self.now.processes }
        ensures { Finds (length self.now.channels) (out_of self.now p port) result }
    {
        if port < 3 {
            self.ports[p].outs[port]
        } else {
            find_out(self.channels.as_slice(), p, port)
        }
    }
}
