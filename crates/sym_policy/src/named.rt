//! The lists that match lines name, over terms.

ghost use Rattle.std.specs.Prelude.{◌≡◌, ◌==◌, ℕ, ◌+◌, ◌<◌, ◌≤◌, Bool, false, ◌&&◌, ◌||◌, ◌++◌, IfOk, length};
ghost use Rattle.std.specs.List.{find, list_any};
ghost use Rattle.std.specs.Option.{option_copied};
ghost use Rattle.mw_text.specs.Text.{same_text};
ghost use Rattle.term_store.specs.Terms.{Reading, size, at};
ghost use Rattle.term_store.specs.Reading.{Reads, Builds, Gives};
ghost use Rattle.term_arith.specs.Bits.{bits, number, ids_end};
ghost use Rattle.ios_ast.specs.Packets.{packet_permitted};
ghost use Rattle.ios_ast.specs.Matching.{access_named, prefixes_named, header_of_prefix, names_of};
ghost use Rattle.sym_policy.specs.Records.{prefix_of, packet_end, header_of};
ghost use Rattle.sym_policy.specs.Routes.{path_at, path_end};
ghost use Rattle.route_shapes.specs.Shapes.{marks_named, shape_named};

use crate::lists::{sym_communities, sym_paths};
use crate::packets::sym_access_list;
use crate::parts::SymPath;
use crate::prefixes::{high_bits, sym_prefix_list};
use crate::records::SymPacket;
use ios_ast::{AccessList, AsPathList, CommunityList, Match, Policies, PrefixList, Use};
use mw_text::same_bytes;
use std::alloc::{AllocError, Global};
use term_arith::gates::constant_node;
use term_arith::{Bits, constant};
use term_store::{NodeId, Terms};

/// The access list of a name.
fn find_access<'a>(policies: &'a Policies, name: &[u8]) -> Option<&'a AccessList>
    ensures { option_copied result ≡ find (λ l. same_text l.name name.now) policies.now.access }
{
    for list in policies.access.as_slice() {
        if same_bytes(list.name.as_slice(), name) {
            return Some(list);
        }
    }
    None
}

/// The prefix list of a name.
fn find_prefixes<'a>(policies: &'a Policies, name: &[u8]) -> Option<&'a PrefixList>
    ensures { option_copied result ≡ find (λ l. same_text l.name name.now) policies.now.prefix_lists }
{
    for list in policies.prefix_lists.as_slice() {
        if same_bytes(list.name.as_slice(), name) {
            return Some(list);
        }
    }
    None
}

/// The community list of a name.
fn find_communities<'a>(policies: &'a Policies, name: &[u8]) -> Option<&'a CommunityList>
    ensures { option_copied result ≡ find (λ l. same_text l.name name.now) policies.now.communities }
{
    for list in policies.communities.as_slice() {
        if same_bytes(list.name.as_slice(), name) {
            return Some(list);
        }
    }
    None
}

/// The AS-path list of a name.
fn find_paths<'a>(policies: &'a Policies, name: &[u8]) -> Option<&'a AsPathList>
    ensures { option_copied result ≡ find (λ l. same_text l.name name.now) policies.now.as_paths }
{
    for list in policies.as_paths.as_slice() {
        if same_bytes(list.name.as_slice(), name) {
            return Some(list);
        }
    }
    None
}

/// Whether the prefix list of that name permits the prefix of that length of an address. One that is not there denies.
pub fn sym_prefixes_named(
    alloc: Global,
    terms: &mut Terms,
    policies: &Policies,
    dst: &Bits,
    len: u8,
    named: &Use,
) -> Result<NodeId, AllocError>
    requires long { len ≤ 32 }
    requires wide { length dst.now.nodes.items ≡ 32 }
    requires nodes { ids_end dst.now.nodes.items ≤ size terms.old }
    ensures builds { Builds terms.old terms.new }
    ensures within { IfOk result (λ r. r.0 < size terms.new) }
    ensures value { Gives terms.new result (λ w r. at w r ≡ prefixes_named policies.now (prefix_of w dst.now len) named.now) }
{
    match find_prefixes(policies, named.name.as_slice()) {
        Some(list) => sym_prefix_list(alloc, terms, list, dst, len),
        None => constant_node(terms, false),
    }
}

/// A number of which all bits are 0.
fn zero(alloc: Global, terms: &mut Terms, width: u8) -> Result<Bits, AllocError>
    requires { width ≤ 64 }
    ensures builds { Builds terms.old terms.new }
    ensures within { IfOk result (λ r. ids_end r.nodes.items ≤ size terms.new) }
    ensures width { IfOk result (λ r. length r.nodes.items ≡ width) }
    ensures value { Gives terms.new result (λ w r. number w r.nodes.items ≡ 0) }
{
    constant(alloc, terms, 0, width)
}

/// A number by its low bits and its high bits.
fn join(alloc: Global, low: &Bits, high: &[NodeId]) -> Result<Bits, AllocError>
    ensures { IfOk result (λ r. r.nodes.items ≡ low.now.nodes.items ++ high.now) }
{
    let mut nodes = Vec::from_slice(alloc, low.nodes.as_slice())?;
    nodes.extend_from_slice(high)?;
    Ok(Bits { nodes })
}

/// The network address of the prefix of that length of an address: the bits past the length are 0.
#[tactic(auto, using(crate::proofs::NetworkBits::network_steps))]
fn sym_network(alloc: Global, terms: &mut Terms, dst: &Bits, len: u8) -> Result<Bits, AllocError>
    requires long { len ≤ 32 }
    requires wide { length dst.now.nodes.items ≡ 32 }
    requires nodes { ids_end dst.now.nodes.items ≤ size terms.old }
    ensures builds { Builds terms.old terms.new }
    ensures within { IfOk result (λ r. ids_end r.nodes.items ≤ size terms.new) }
    ensures width { IfOk result (λ r. length r.nodes.items ≡ 32) }
    ensures value { Gives terms.new result (λ w r. number w r.nodes.items ≡ (prefix_of w dst.now len).addr.0) }
{
    let low = 32 - len;
    let cleared = zero(alloc, terms, low)?;
    let kept = high_bits(dst, low);
    let network = join(alloc, &cleared, kept)?;
    Ok(network)
}

/// The packet by which access lists test a prefix: from its network address, and all else 0.
fn sym_packet(
    alloc: Global,
    terms: &mut Terms,
    dst: &Bits,
    len: u8,
) -> Result<SymPacket, AllocError>
    requires long { len ≤ 32 }
    requires wide { length dst.now.nodes.items ≡ 32 }
    requires nodes { ids_end dst.now.nodes.items ≤ size terms.old }
    ensures builds { Builds terms.old terms.new }
    ensures within { IfOk result (λ r. packet_end r ≤ size terms.new) }
    ensures value { Gives terms.new result (λ w r. header_of w r ≡ header_of_prefix (prefix_of w dst.now len)) }
{
    let src = sym_network(alloc, terms, dst, len)?;
    let none = zero(alloc, terms, 32)?;
    let proto = zero(alloc, terms, 8)?;
    let sport = zero(alloc, terms, 16)?;
    let dport = zero(alloc, terms, 16)?;
    Ok(SymPacket {
        src,
        dst: none,
        proto,
        sport,
        dport,
    })
}

/// Whether an access list permits the network address of the prefix.
fn sym_access_of(
    alloc: Global,
    terms: &mut Terms,
    list: &AccessList,
    dst: &Bits,
    len: u8,
) -> Result<NodeId, AllocError>
    requires long { len ≤ 32 }
    requires wide { length dst.now.nodes.items ≡ 32 }
    requires nodes { ids_end dst.now.nodes.items ≤ size terms.old }
    ensures builds { Builds terms.old terms.new }
    ensures within { IfOk result (λ r. r.0 < size terms.new) }
    ensures value { Gives terms.new result (λ w r. at w r ≡ packet_permitted list.now.entries (header_of_prefix (prefix_of w dst.now len))) }
{
    let packet = sym_packet(alloc, terms, dst, len)?;
    let permits = sym_access_list(alloc, terms, list, &packet)?;
    Ok(permits)
}

/// Whether the access list of that name permits the network address of the prefix. One that is not there denies.
pub(crate) fn sym_access_named(
    alloc: Global,
    terms: &mut Terms,
    policies: &Policies,
    dst: &Bits,
    len: u8,
    named: &Use,
) -> Result<NodeId, AllocError>
    requires long { len ≤ 32 }
    requires wide { length dst.now.nodes.items ≡ 32 }
    requires nodes { ids_end dst.now.nodes.items ≤ size terms.old }
    ensures builds { Builds terms.old terms.new }
    ensures within { IfOk result (λ r. r.0 < size terms.new) }
    ensures value { Gives terms.new result (λ w r. at w r ≡ access_named policies.now (prefix_of w dst.now len) named.now) }
{
    match find_access(policies, named.name.as_slice()) {
        Some(list) => sym_access_of(alloc, terms, list, dst, len),
        None => constant_node(terms, false),
    }
}

/// Whether the community list of that name permits the marked communities. One that is not there denies.
pub(crate) fn sym_communities_named(
    terms: &mut Terms,
    policies: &Policies,
    tracked: &[u32],
    marks: &[NodeId],
    named: &Use,
) -> Result<NodeId, AllocError>
    requires { ids_end marks.now ≤ size terms.old }
    ensures builds { Builds terms.old terms.new }
    ensures within { IfOk result (λ r. r.0 < size terms.new) }
    ensures value { Gives terms.new result (λ w r. at w r ≡ marks_named policies.now tracked.now (bits w marks.now) named.now) }
{
    match find_communities(policies, named.name.as_slice()) {
        Some(list) => sym_communities(terms, tracked, marks, list.entries.as_slice()),
        None => constant_node(terms, false),
    }
}

/// Whether the AS-path list of that name permits the path. One that is not there denies.
pub fn sym_paths_named(
    terms: &mut Terms,
    policies: &Policies,
    tracked: &[u32],
    path: &SymPath,
    named: &Use,
) -> Result<NodeId, AllocError>
    requires { path_end path.now ≤ size terms.old }
    ensures builds { Builds terms.old terms.new }
    ensures within { IfOk result (λ r. r.0 < size terms.new) }
    ensures value { Gives terms.new result (λ w r. at w r ≡ shape_named policies.now tracked.now (path_at w path.now) named.now) }
{
    match find_paths(policies, named.name.as_slice()) {
        Some(list) => sym_paths(terms, tracked, path, list.entries.as_slice()),
        None => constant_node(terms, false),
    }
}
