//! All that is wrong with a sketch.
ghost use Rattle.std.specs.Prelude.{◌≡◌, ◌≢◌, ◌<◌, ◌≤◌, ◌&&◌, ◌∷◌, [], false, true, length, string_bytes};
ghost use Rattle.kpn_net.specs.Faults.{has_fault};
ghost use Rattle.kpn_message.specs.Location.{is_of_description};
ghost use Rattle.kpn_message.specs.EveryFault.{Adds, Tells, due, due_of, has_wrong_end, has_wrong_process, is_of, is_of_process, stands_alone, subject, told_at, is_due, told_at_channels, told_at_processes};

use crate::location::{Location, channel_has_fault, process_has_fault};
use crate::message::{Said, message_at};
use kpn_net::faults::has_fault;
use kpn_net::{Kinds, NetFault, Sketch};
use std::alloc::Global;

/// The most messages that are returned.
pub const MOST_MESSAGES: usize = 20;

/// The possible faults of a sketch, in the order of their numbers.
const FAULTS: [NetFault; 13] = [
    NetFault::Version,
    NetFault::Counts,
    NetFault::Name,
    NetFault::Kind,
    NetFault::Args,
    NetFault::NoEnd,
    NetFault::Twice,
    NetFault::Unused,
    NetFault::Sorts,
    NetFault::Capacity,
    NetFault::Budget,
    NetFault::Tokens,
    NetFault::Step,
];

/// A fault of a sketch, a place that has it, and a message.
#[derive(Drop)]
pub struct Message {
    pub fault: NetFault,
    pub place: Location,
    pub text: String,
}

/// What is wrong with a sketch; how many more faults there are (at most `u64::MAX`); and whether there was
/// memory for all: else messages may be missing, and the count too low.
#[derive(Drop)]
pub struct Messages {
    pub told: Vec<Message>,
    pub more: u64,
    pub are_all: bool,
}

/// Returns what is wrong with a sketch: for each fault, in the order of their numbers, a line without a line
/// feed for the description, or for each process and channel that has it; at most `MOST_MESSAGES`, and the
/// number of the others. The first is of the sketch's first fault. `kinds` names the existing kinds.
///
/// Faults that another may have caused are left out: missing ends, shared and unused ports and sorts if a
/// name, kind or argument is wrong; unused ports and sorts also if an end is missing or shared; capacities,
/// budget and tokens if the version is wrong; tokens also if a sort is.
///
/// If out of memory, messages may be missing, and `are_all` is false.
///
/// ```text
/// for message in &messages_of_sketch::<AllKinds>(rt.alloc(), &sketch, KINDS).told {
///     say_of(rt, file, message.text.as_str());
/// }
/// ```
pub fn messages_of_sketch<K: Kinds>(alloc: Global, sketch: &Sketch, kinds: &str) -> Messages
    ensures { Tells (due K.named K.signature sketch.now) result }
{
    let mut messages = Messages {
        told: Vec::new(alloc),
        more: 0,
        are_all: true,
    };
    for fault in FAULTS {
        push_due::<K>(alloc, &mut messages, sketch, fault, kinds);
    }
    messages
}

/// Adds the messages of a fault, if the sketch has it and no other may have caused it.
fn push_due<K: Kinds>(
    alloc: Global,
    messages: &mut Messages,
    sketch: &Sketch,
    fault: NetFault,
    kinds: &str,
)
    ensures { Adds (due_of K.named K.signature sketch.now fault) messages.old messages.new }
{
    if !is_due::<K>(sketch, fault) {
        return;
    }
    let place = Location::Description;
    push_place::<K>(alloc, messages, sketch, FaultAt { fault, place }, kinds);
    push_processes::<K>(alloc, messages, sketch, fault, kinds);
    push_channels::<K>(alloc, messages, sketch, fault, kinds);
}

fn is_due<K: Kinds>(sketch: &Sketch, fault: NetFault) -> bool
    ensures { result ≡ is_due K.named K.signature sketch.now fault }
{
    has_fault::<K>(sketch, fault) && stands_alone::<K>(sketch, fault)
}

/// Whether no other fault of the sketch may have caused this one.
fn stands_alone<K: Kinds>(sketch: &Sketch, fault: NetFault) -> bool
    ensures { result ≡ stands_alone K.named K.signature sketch.now fault }
{
    match fault {
        NetFault::NoEnd | NetFault::Twice => !has_wrong_process::<K>(sketch),
        NetFault::Unused | NetFault::Sorts => {
            !has_wrong_process::<K>(sketch) && !has_wrong_end::<K>(sketch)
        }
        NetFault::Capacity | NetFault::Budget => !has_fault::<K>(sketch, NetFault::Version),
        NetFault::Tokens => {
            !has_fault::<K>(sketch, NetFault::Version) && !has_fault::<K>(sketch, NetFault::Sorts)
        }
        _ => true,
    }
}

fn has_wrong_process<K: Kinds>(sketch: &Sketch) -> bool
    ensures { result ≡ has_wrong_process K.named K.signature sketch.now }
{
    has_fault::<K>(sketch, NetFault::Name)
        || has_fault::<K>(sketch, NetFault::Kind)
        || has_fault::<K>(sketch, NetFault::Args)
}

fn has_wrong_end<K: Kinds>(sketch: &Sketch) -> bool
    ensures { result ≡ has_wrong_end K.named K.signature sketch.now }
{
    has_fault::<K>(sketch, NetFault::NoEnd) || has_fault::<K>(sketch, NetFault::Twice)
}

fn push_processes<K: Kinds>(
    alloc: Global,
    messages: &mut Messages,
    sketch: &Sketch,
    fault: NetFault,
    kinds: &str,
)
    ensures { Adds (told_at_processes K.named K.signature sketch.now fault) messages.old messages.new }
{
    for p in 0..sketch.processes.as_slice().len() {
        let place = Location::Process(p);
        push_place::<K>(alloc, messages, sketch, FaultAt { fault, place }, kinds);
    }
}

fn push_channels<K: Kinds>(
    alloc: Global,
    messages: &mut Messages,
    sketch: &Sketch,
    fault: NetFault,
    kinds: &str,
)
    ensures { Adds (told_at_channels K.named K.signature sketch.now fault) messages.old messages.new }
{
    for c in 0..sketch.channels.as_slice().len() {
        let place = Location::Channel(c);
        push_place::<K>(alloc, messages, sketch, FaultAt { fault, place }, kinds);
    }
}

/// A fault, and the place that may have it.
#[derive(Clone, Copy)]
struct FaultAt {
    fault: NetFault,
    place: Location,
}

/// Adds the message of a fault at a place, if the place has it.
fn push_place<K: Kinds>(
    alloc: Global,
    messages: &mut Messages,
    sketch: &Sketch,
    at: FaultAt,
    kinds: &str,
)
    ensures { Adds (told_at K.named K.signature sketch.now at.fault at.place) messages.old messages.new }
{
    if !is_of::<K>(sketch, at.fault, at.place) {
        return;
    }
    push_message::<K>(alloc, messages, sketch, at, kinds);
}

/// Adds the message of a fault at a place if there is room; else counts it.
fn push_message<K: Kinds>(
    alloc: Global,
    messages: &mut Messages,
    sketch: &Sketch,
    at: FaultAt,
    kinds: &str,
)
    ensures { Adds ((at.fault, at.place) ∷ []) messages.old messages.new }
{
    let FaultAt { fault, place } = at;
    if is_full(messages) {
        messages.more = messages.more.saturating_add(1);
        return;
    }
    let Some(Said { text }) = message_at::<K>(alloc, sketch, fault, place, kinds) else {
        messages.are_all = false;
        return;
    };
    add(messages, Message { fault, place, text });
}

fn is_full(messages: &Messages) -> bool
    ensures full { result ≡ true → MOST_MESSAGES ≤ length messages.now.told.items }
    ensures room { result ≡ false → length messages.now.told.items < MOST_MESSAGES }
{
    messages.told.len() >= MOST_MESSAGES
}

/// Adds a message, for which there must be room. It is dropped if out of memory.
fn add(messages: &mut Messages, message: Message)
    requires room { length messages.old.told.items < MOST_MESSAGES }
    requires said { string_bytes message.text ≢ [] }
    ensures { Adds (subject message ∷ []) messages.old messages.new }
{
    let is_added = messages.told.push(message).is_ok();
    messages.are_all = is_added & messages.are_all;
}

/// Whether a place has a fault and gets a message.
fn is_of<K: Kinds>(sketch: &Sketch, fault: NetFault, place: Location) -> bool
    ensures { result ≡ is_of K.named K.signature sketch.now fault place }
{
    match place {
        Location::Description => is_of_description(fault),
        Location::Process(p) => is_of_process::<K>(sketch, fault, p),
        Location::Channel(c) => channel_has_fault::<K>(sketch, fault, c),
    }
}

fn is_of_description(fault: NetFault) -> bool
    ensures { result ≡ is_of_description fault }
{
    matches!(
        fault,
        NetFault::Version | NetFault::Counts | NetFault::Budget | NetFault::Step
    )
}

/// Whether process `p` has the fault; wrong arguments don't count if its kind is unknown.
fn is_of_process<K: Kinds>(sketch: &Sketch, fault: NetFault, p: usize) -> bool
    ensures { result ≡ is_of_process K.named K.signature sketch.now fault p }
{
    match fault {
        NetFault::Args => {
            process_has_fault::<K>(sketch, NetFault::Args, p)
                && !process_has_fault::<K>(sketch, NetFault::Kind, p)
        }
        _ => process_has_fault::<K>(sketch, fault, p),
    }
}
