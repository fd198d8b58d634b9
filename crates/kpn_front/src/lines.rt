//! The lines about a description or a run, and their exit statuses.
ghost use Rattle.std.specs.Prelude.{◌≡◌, ◌≢◌, ◌≤◌, ◌+◌, ◌++◌, true, OnOk, IsOk, decimal, length};
ghost use Rattle.arrayvec.specs.ArrayString.{array_string_len};
ghost use Rattle.kpn_front.specs.Lines.{checked_line, lost_line, refused_line, no_channel_line, status_of_fault};
ghost use Rattle.kpn_front.specs.Written.{Says, AppendsTo};

use crate::status::ExitStatus;
use crate::streams::Sink;
use arrayvec::ArrayString;
use itoa::Buffer;
use kpn_net::{Kinds, Net, NetFault};
use std::io;

/// The capacity of a line: two numbers and the text around them.
const LINE_BYTES: usize = 64;

/// Writes a text, and returns the number of `status`, or 7 if the write fails.
///
/// The write succeeds if the sink takes that many bytes. If it fails, some may have been written. `status`
/// must not be `WriteFailed`.
pub fn say<S: Sink>(sink: &mut S, text: &str, status: ExitStatus) -> u8
    requires { status ≢ ExitStatus.WriteFailed }
    ensures { Says status text.now (S.seen sink.old) (S.seen sink.new) result }
{
    match sink.write_all(text.as_bytes()) {
        Ok(()) => status.code(),
        Err(_) => ExitStatus::WriteFailed.code(),
    }
}

/// Writes that a network was accepted, like `ok 2 processes 1 channels`. Returns 0, or 7 if the write fails.
/// Takes no memory.
pub fn say_checked<K: Kinds, S: Sink>(net: &Net<K>, sink: &mut S) -> u8
    ensures { Says ExitStatus.Success (checked_line net.now) (S.seen sink.old) (S.seen sink.new) result }
{
    say(sink, checked_text(net).as_str(), ExitStatus::Success)
}

/// Writes that a description was refused, like `refused 9`. Returns 4 if out of memory, 2 for any other
/// fault, or 7 if the write fails. Takes no memory.
pub fn say_refused<S: Sink>(fault: &NetFault, sink: &mut S) -> u8
    ensures { Says (status_of_fault fault.now) (refused_line fault.now) (S.seen sink.old) (S.seen sink.new) result }
{
    say(sink, refused_text(fault).as_str(), status_of(fault))
}

/// Writes `lost`: the machine refused a worker's answer. Returns 8, or 7 if the write fails. Takes no memory.
pub fn say_lost<S: Sink>(sink: &mut S) -> u8
    ensures { Says ExitStatus.Lost lost_line (S.seen sink.old) (S.seen sink.new) result }
{
    say(sink, "lost\n", ExitStatus::Lost)
}

/// Writes that no channel has this name, like `no channel c9`. Returns 1, or 7 if the write fails. Takes no
/// memory.
pub fn say_no_channel<S: Sink>(name: &str, sink: &mut S) -> u8
    ensures { Says ExitStatus.WrongArguments (no_channel_line name.now) (S.seen sink.old) (S.seen sink.new) result }
{
    match write_no_channel(name, sink) {
        Ok(()) => ExitStatus::WrongArguments.code(),
        Err(_) => ExitStatus::WriteFailed.code(),
    }
}

/// In three parts, since a name may have any length.
fn write_no_channel<S: Sink>(name: &str, sink: &mut S) -> io::Result<()>
    ensures bytes { OnOk result (AppendsTo (S.seen sink.old) (S.seen sink.new) (no_channel_line name.now)) }
    ensures room { (S.seen sink.old).takes (length (no_channel_line name.now)) ≡ true → IsOk result }
{
    sink.write_all(b"no channel ")?;
    sink.write_all(name.as_bytes())?;
    sink.write_all(b"\n")?;
    Ok(())
}

fn status_of(fault: &NetFault) -> ExitStatus
    ensures { result ≡ status_of_fault fault.now }
{
    match fault {
        NetFault::Memory => ExitStatus::MemoryRefused,
        _ => ExitStatus::Refused,
    }
}

fn checked_text<K: Kinds>(net: &Net<K>) -> ArrayString<LINE_BYTES>
    ensures { result.bytes ≡ checked_line net.now }
{
    let mut line = ArrayString::new();
    line.push_str("ok ");
    push_number(&mut line, net.processes());
    line.push_str(" processes ");
    push_number(&mut line, net.channels());
    line.push_str(" channels\n");
    line
}

fn refused_text(fault: &NetFault) -> ArrayString<LINE_BYTES>
    ensures { result.bytes ≡ refused_line fault.now }
{
    let mut line = ArrayString::new();
    line.push_str("refused ");
    push_number(&mut line, usize::from(fault.number()));
    line.push_str("\n");
    line
}

fn push_number(line: &mut ArrayString<LINE_BYTES>, n: usize)
    requires { array_string_len line.old + 20 ≤ 64 }
    ensures bytes { line.new.bytes ≡ line.old.bytes ++ decimal n }
    ensures len { array_string_len line.new ≤ array_string_len line.old + 20 }
{
    let mut buffer = Buffer::new();
    line.push_str(buffer.format(n));
}
