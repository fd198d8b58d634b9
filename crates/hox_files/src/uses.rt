//! The uses of files, and which of them clash.
ghost use Rattle.std.specs.Prelude.{◌≡◌, ◌++◌, true, false, map, IfErr, IfOk, IfSome, None, OnOk};
ghost use Rattle.std.specs.List.{All, Contains};
ghost use Rattle.hox_files.specs.Uses.{AreApart, AreUsesApart, IsClash, IsMisuse, UsesClash, gives_tokens, gives_twice, is_written, used, used_for, uses_named, writes_output, writes_output_twice};

use crate::files::FileSystem;
use crate::pairs::{Pair, STANDARD};
use crate::stops::Stop;
use std::alloc::{AllocError, Global};

/// The use of a file.
#[derive(Clone, Copy, Debug, PartialEq, Eq)]
pub enum Role {
    /// It is the description.
    Description,
    /// A channel's first tokens are read from it: `--tokens`.
    Tokens,
    /// Tokens are read from it as they come: `--in`.
    In,
    /// A channel's stream is written to it: `--out`.
    Out,
    /// The report is written to it.
    Report,
}

impl Role {
    /// Returns whether the file is written; else it is read.
    pub fn is_written(self) -> bool
        ensures { result ≡ is_written self }
    {
        match self {
            Role::Description | Role::Tokens | Role::In => false,
            Role::Out | Role::Report => true,
        }
    }

    /// Returns whether the tokens of a channel are read from the file.
    pub fn gives_tokens(self) -> bool
        ensures { result ≡ gives_tokens self }
    {
        match self {
            Role::Tokens | Role::In => true,
            Role::Description | Role::Out | Role::Report => false,
        }
    }
}

/// A use of a file. `channel` is empty if it is for none.
#[derive(Clone, Copy, Debug)]
pub struct Use<'a> {
    pub role: Role,
    pub channel: &'a str,
    pub file: &'a str,
}

/// The files that a command names: the description, the inputs in their role, and the outputs; and whether a
/// report goes to standard output.
#[derive(Clone, Copy, Debug)]
pub struct NamedFiles<'a, 'b> {
    pub file: &'a str,
    pub role: Role,
    pub inputs: &'b [Pair<'a>],
    pub outputs: &'b [Pair<'a>],
    pub is_told: bool,
}

/// Checks that the files that a command names can be used together.
///
/// Errors: two uses that clash; or out of memory.
pub fn check_uses<'a, S: FileSystem>(
    alloc: Global,
    files: &S,
    named: &NamedFiles<'a, '_>,
) -> Result<(), Stop<'a>>
    ensures ok { OnOk result (AreApart (S.clash files.now) (uses_named named.now)) }
    ensures fault { IfErr result (IsMisuse (S.clash files.now) (uses_named named.now)) }
{
    let Ok(uses) = uses_of(alloc, named) else {
        return Err(Stop::Memory);
    };
    match clash_among(files, uses.as_slice()) {
        Some((one, other)) => Err(Stop::Clash { one, other }),
        None => Ok(()),
    }
}

fn uses_of<'a>(alloc: Global, named: &NamedFiles<'a, '_>) -> Result<Vec<Use<'a>>, AllocError>
    ensures { IfOk result (λ v. map used v.items ≡ uses_named named.now) }
{
    let mut uses = Vec::new(alloc);
    uses.push(Use {
        role: Role::Description,
        channel: "",
        file: named.file,
    })?;
    push_uses(&mut uses, named.role, named.inputs)?;
    push_uses(&mut uses, Role::Out, named.outputs)?;
    if named.is_told {
        uses.push(Use {
            role: Role::Report,
            channel: "",
            file: STANDARD,
        })?;
    }
    Ok(uses)
}

fn push_uses<'a>(uses: &mut Vec<Use<'a>>, role: Role, pairs: &[Pair<'a>]) -> Result<(), AllocError>
    ensures { OnOk result (map used uses.new.items ≡ map used uses.old.items ++ map (used_for role) pairs.now) }
{
    for pair in pairs {
        let Pair { channel, file, .. } = *pair;
        uses.push(Use {
            role,
            channel,
            file,
        })?;
    }
    Ok(())
}

fn clash_among<'a, S: FileSystem>(files: &S, uses: &[Use<'a>]) -> Option<(Use<'a>, Use<'a>)>
    ensures apart { result ≡ None → AreApart (S.clash files.now) (map used uses.now) }
    ensures clash { IfSome result (λ c. IsClash (S.clash files.now) (map used uses.now) (used c.0) (used c.1)) }
{
    for k in 0..uses.len() {
        let one = uses[k];
        match clash_with(files, one, &uses[k + 1..]) {
            Some(other) => return Some((one, other)),
            None => {}
        }
    }
    None
}

/// Returns the first of `others` that clashes with `one`.
fn clash_with<'a, S: FileSystem>(files: &S, one: Use<'a>, others: &[Use<'a>]) -> Option<Use<'a>>
    ensures apart { result ≡ None → All (AreUsesApart (S.clash files.now) one.entry) others.now }
    ensures clash { IfSome result (λ other. Contains others.now other × UsesClash (S.clash files.now) one.entry other) }
{
    for other in others {
        if do_clash(files, one, *other) {
            return Some(*other);
        }
    }
    None
}

fn do_clash<S: FileSystem>(files: &S, one: Use<'_>, other: Use<'_>) -> bool
    ensures apart { result ≡ false → AreUsesApart (S.clash files.now) one.entry other.entry }
    ensures clash { result ≡ true → UsesClash (S.clash files.now) one.entry other.entry }
{
    is_given_twice(one, other)
        || is_output_twice(one, other)
        || files.clashes(
            one.file,
            one.role.is_written(),
            other.file,
            other.role.is_written(),
        )
}

fn is_given_twice(one: Use<'_>, other: Use<'_>) -> bool
    ensures { result ≡ gives_twice (used one.entry) (used other.entry) }
{
    one.role.gives_tokens() && other.role.gives_tokens() && one.channel == other.channel
}

fn is_output_twice(one: Use<'_>, other: Use<'_>) -> bool
    ensures { result ≡ writes_output_twice (used one.entry) (used other.entry) }
{
    is_output(one) && is_output(other)
}

fn is_output(one: Use<'_>) -> bool
    ensures { result ≡ writes_output (used one.entry) }
{
    one.role.is_written() && one.file == STANDARD
}
