//! Which files form no network, at which line and by which rule.

ghost use Rattle.std.specs.Prelude.{◌≡◌, IfOk, Some, drop, slice_get, take, true};
ghost use Rattle.std.specs.Option.{option_or};
ghost use Rattle.net_refusals.specs.Apart.{KeptAbroad};
ghost use Rattle.net_refusals.specs.Refusals as refusals;

use crate::apart::are_apart;
use crate::clashes::{same_address_line, same_name_line, subnet_clash_line};
use crate::connections::{internal_peer_line, second_area_line, unconnected_line};
use crate::many::limit_line;
use crate::undefined::undefined_line;
use ios_ast::File;
use std::alloc::{AllocError, Global};

/// By which rule files form no network.
#[derive(Clone, Copy, Debug, PartialEq, Eq)]
pub enum NetCause {
    /// A list, a map, an interface, an OSPF process or an AS that a line uses is not defined in its file.
    Undefined,
    /// Two files have one hostname.
    SameName,
    /// Two interfaces have one address.
    SameAddress,
    /// Two different subnets overlap, one router has two interfaces on one subnet, or a loopback's subnet is another
    /// interface's too.
    SubnetClash,
    /// A static next hop is on no subnet of its router, or not on that of the interface that is named.
    NextHopNotConnected,
    /// An external peer has the AS number of its router.
    ExternalInternalPeer,
    /// An area is not that of the first `network` line of the files.
    SecondArea,
    /// There are too many routers, tracked communities or tracked AS numbers.
    NetLimit,
    /// There is too little memory.
    Memory,
}

/// Where files form no network: the place of the file among them, its line, and the rule that it breaks.
#[derive(Clone, Copy, Debug, PartialEq, Eq)]
pub struct NetRefused {
    pub file: u64,
    pub line: u32,
    pub cause: NetCause,
}

impl From<AllocError> for NetRefused {
    ghost use Rattle.net_refusals.specs.declared.refusals.NetCause.TheVariants.{Memory};

    ghost from_gives = { λ _ refused. refused.cause ≡ Memory };

    fn from(_error: AllocError) -> NetRefused {
        NetRefused {
            file: 0,
            line: 0,
            cause: NetCause::Memory,
        }
    }
}

// The first line of a file, which stands after some of the files, that breaks the rule.
fn broken_line(
    alloc: Global,
    cause: NetCause,
    files: &[File],
    before: &[File],
    file: &File,
) -> Result<Option<u32>, AllocError>
    ensures { IfOk result (λ line. line ≡ refusals.broken_line cause files.now before.now file.now) }
{
    match cause {
        NetCause::SameName => Ok(same_name_line(before, file)),
        NetCause::SameAddress => Ok(same_address_line(before, file)),
        NetCause::SubnetClash => Ok(subnet_clash_line(before, file)),
        NetCause::Undefined => Ok(undefined_line(file)),
        NetCause::NextHopNotConnected => Ok(unconnected_line(file)),
        NetCause::ExternalInternalPeer => Ok(internal_peer_line(files, file)),
        NetCause::SecondArea => Ok(second_area_line(files, file)),
        NetCause::NetLimit => limit_line(alloc, before, file),
        NetCause::Memory => Ok(None),
    }
}

fn refused_at(cause: NetCause, file: usize, line: u32) -> NetRefused
    ensures { result ≡ refusals.refused_at cause file line }
{
    NetRefused {
        file: file as u64,
        line,
        cause,
    }
}

// Whether the rule is kept between files, where a fast test tells.
fn is_kept_abroad(alloc: Global, cause: NetCause, files: &[File]) -> Result<bool, AllocError>
    ensures { IfOk result (λ kept. kept ≡ true → KeptAbroad cause files.now) }
{
    match cause {
        NetCause::SameAddress | NetCause::SubnetClash => are_apart(alloc, files),
        _ => Ok(false),
    }
}

// The first line of the file of that number that breaks the rule. Earlier files are not looked at where it is kept abroad.
fn broken_line_at(
    alloc: Global,
    cause: NetCause,
    files: &[File],
    at: usize,
    file: &File,
    kept_abroad: bool,
) -> Result<Option<u32>, AllocError>
    requires there { slice_get files.now at ≡ Some file.now }
    requires abroad { kept_abroad ≡ true → KeptAbroad cause files.now }
    ensures { IfOk result (λ line. line ≡ refusals.broken_line cause files.now (take at files.now) file.now) }
{
    let first = if kept_abroad { 0 } else { at };
    let (before, _) = files.split_at(first);
    broken_line(alloc, cause, files, before, file)
}

/// The first file that breaks the rule, and its first line that does. None exactly where the files keep it.
#[tactic(auto, unfolding(crate::specs::Refusals::first_broken))]
pub fn first_broken(
    alloc: Global,
    cause: NetCause,
    files: &[File],
) -> Result<Option<NetRefused>, AllocError>
    ensures { IfOk result (λ found. found ≡ refusals.first_broken cause files.now) }
{
    let kept_abroad = is_kept_abroad(alloc, cause, files)?;
    for (at, file) in files.iter().enumerate() {
        if let Some(line) = broken_line_at(alloc, cause, files, at, file, kept_abroad)? {
            return Ok(Some(refused_at(cause, at, line)));
        }
    }
    Ok(None)
}

// What was found already, else the first that breaks the rule.
fn or_first_broken(
    alloc: Global,
    found: Option<NetRefused>,
    cause: NetCause,
    files: &[File],
) -> Result<Option<NetRefused>, AllocError>
    ensures { IfOk result (λ all. all ≡ option_or found (refusals.first_broken cause files.now)) }
{
    match found {
        Some(refused) => Ok(Some(refused)),
        None => first_broken(alloc, cause, files),
    }
}

fn refused_by_addresses(alloc: Global, files: &[File]) -> Result<Option<NetRefused>, AllocError>
    ensures { IfOk result (λ found. found ≡ refusals.refused_by_addresses files.now) }
{
    let found = first_broken(alloc, NetCause::SameName, files)?;
    let found = or_first_broken(alloc, found, NetCause::SameAddress, files)?;
    or_first_broken(alloc, found, NetCause::SubnetClash, files)
}

fn refused_by_uses(
    alloc: Global,
    found: Option<NetRefused>,
    files: &[File],
) -> Result<Option<NetRefused>, AllocError>
    ensures { IfOk result (λ all. all ≡ refusals.refused_by_uses found files.now) }
{
    let found = or_first_broken(alloc, found, NetCause::Undefined, files)?;
    let found = or_first_broken(alloc, found, NetCause::NextHopNotConnected, files)?;
    or_first_broken(alloc, found, NetCause::ExternalInternalPeer, files)
}

/// Why the files form no network, by the first rule that they break: two hostnames are one; two addresses are; subnets
/// clash; a line uses what its file does not define; a static next hop is not connected; an external peer has the AS number
/// of its router; there is a second area; there are too many routers or tracked values. None exactly where they break none.
#[tactic(auto, unfolding(crate::specs::Refusals::first_refusal))]
pub fn refuse(alloc: Global, files: &[File]) -> Result<Option<NetRefused>, AllocError>
    ensures { IfOk result (λ found. found ≡ refusals.first_refusal files.now) }
{
    let found = refused_by_addresses(alloc, files)?;
    let found = refused_by_uses(alloc, found, files)?;
    let found = or_first_broken(alloc, found, NetCause::SecondArea, files)?;
    or_first_broken(alloc, found, NetCause::NetLimit, files)
}
