//! Reads the lines of lists and route maps.

ghost use Rattle.std.specs.Prelude.{◌≡◌, ◌≢◌, ◌-◌, ◌<◌, ◌≤◌, ◌^◌, IfOk, IfErr, OnErr, Ok, Err, false, length};
ghost use Rattle.ios_policy_reader.specs.Heads.{said_in};
ghost use Rattle.ios_ast.specs.declared.file.TheConstants.{MOST_POLICY_ENTRIES};
ghost use Rattle.ios_policy_reader.specs.Lists.{policy_entries};
ghost use Rattle.ios_policy_reader.specs.Policies.{open_line, map_line, taken_in, access_block, map_block, is_top_row, top_line, context_of, put, is_policy_row, said_reading, context_reading, policy_reading};

use crate::access_lists::access_list_place;
use crate::cause::{Cause, Refused};
use crate::clauses::last_entry;
use crate::heads::{Context, Found, Row, find_row};
use crate::lists::map_place;
use crate::policy_lines::{
    put_access_line, put_community_line, put_entry_line, put_map_block_line, put_map_line,
    put_open_line, put_path_line, put_prefix_line,
};
use crate::rows::read_row;
use crate::said::Said;
use crate::values::list_name;
use ios_ast::Policies;
use mw_text::{Line, List};
use std::alloc::Global;

/// The block that is open: none of a policy, an access list by its position, or the last entry of the map at that
/// position.
#[derive(Clone, Copy)]
pub enum PolicyBlock {
    Outside,
    Access(u32),
    Map(u32),
}

/// Whether a line was a policy's, and the block that is open after it.
#[derive(Clone, Copy)]
pub struct Step {
    pub taken: bool,
    pub block: PolicyBlock,
}

/// A line that is no policy's.
fn passed(block: PolicyBlock) -> Step
    ensures { result ≡ record { taken = false; block = block } }
{
    Step {
        taken: false,
        block,
    }
}

/// Where the lines of the open block stand. None where no block of a policy is open.
pub fn context_in(block: PolicyBlock, policies: &Policies) -> Option<Context>
    ensures { result ≡ context_of block policies.now }
{
    match block {
        PolicyBlock::Outside => None,
        PolicyBlock::Access(at) => match policies.access.items.get(at as usize) {
            Some(list) if list.extended => Some(Context::InExtended),
            Some(_) => Some(Context::InStandard),
            None => None,
        },
        PolicyBlock::Map(at) => match last_entry(policies.maps.as_slice(), at) {
            Some(_) => Some(Context::InMap),
            None => None,
        },
    }
}

/// Whether the row is one of lists and route maps at the top.
fn is_at_top(row: Row) -> bool
    ensures { result ≡ is_top_row row }
{
    matches!(
        row,
        Row::AccessList
            | Row::StandardBlock
            | Row::ExtendedBlock
            | Row::PrefixList
            | Row::CommunityList
            | Row::PathList
            | Row::MapBlock
    )
}

/// Whether the row is one of lists and route maps; in an open block each row is.
fn takes_row(context: Context, row: Row) -> bool
    ensures { result ≡ is_policy_row context row }
{
    match context {
        Context::Top => is_at_top(row),
        _ => true,
    }
}

/// Opens the access list of that name.
fn open_list(
    alloc: Global,
    extended: bool,
    name: List<u8>,
    policies: &mut Policies,
) -> Result<Step, Cause>
    ensures ok { IfOk result (λ step. taken_in (access_block name policies.old) (open_line extended name policies.old) ≡ Ok (record { taken = step.taken; block = step.block; policies = policies.new })) }
    ensures refused { IfErr result (λ cause. cause ≢ Cause.Memory → taken_in (access_block name policies.old) (open_line extended name policies.old) ≡ Err cause) }
    ensures unchanged { OnErr result (policies.new ≡ policies.old) }
{
    let place = access_list_place(policies.access.as_slice(), name.as_slice());
    put_open_line(alloc, extended, name, policies)?;
    Ok(Step {
        taken: true,
        block: PolicyBlock::Access(place),
    })
}

/// Opens a new entry of the map of that name.
fn open_map(
    alloc: Global,
    line: &Line,
    said: &[Said],
    name: List<u8>,
    policies: &mut Policies,
) -> Result<Step, Cause>
    ensures ok { IfOk result (λ step. taken_in (map_block name policies.old) (map_line line.now said.now name policies.old) ≡ Ok (record { taken = step.taken; block = step.block; policies = policies.new })) }
    ensures refused { IfErr result (λ cause. cause ≢ Cause.Memory → taken_in (map_block name policies.old) (map_line line.now said.now name policies.old) ≡ Err cause) }
    ensures unchanged { OnErr result (policies.new ≡ policies.old) }
{
    let place = map_place(policies.maps.as_slice(), name.as_slice());
    put_map_line(alloc, line, said, name, policies)?;
    Ok(Step {
        taken: true,
        block: PolicyBlock::Map(place),
    })
}

/// Does what a line at the top says.
#[tactic(auto, unfolding(crate::specs::Policies::top_line))]
fn put_at_top(
    alloc: Global,
    row: Row,
    line: &Line,
    said: &[Said],
    policies: &mut Policies,
) -> Result<Step, Cause>
    ensures ok { IfOk result (λ step. top_line row line.now said.now policies.old ≡ Ok (record { taken = step.taken; block = step.block; policies = policies.new })) }
    ensures refused { IfErr result (λ cause. cause ≢ Cause.Memory → top_line row line.now said.now policies.old ≡ Err cause) }
    ensures unchanged { OnErr result (policies.new ≡ policies.old) }
{
    let name = list_name(alloc, line.words.as_slice(), said)?;
    match row {
        Row::StandardBlock => return open_list(alloc, false, name, policies),
        Row::ExtendedBlock => return open_list(alloc, true, name, policies),
        Row::MapBlock => return open_map(alloc, line, said, name, policies),
        Row::AccessList => put_access_line(alloc, line, said, name, policies)?,
        Row::PrefixList => put_prefix_line(alloc, line, said, name, policies)?,
        Row::CommunityList => put_community_line(alloc, line, said, name, policies)?,
        Row::PathList => put_path_line(alloc, line, said, name, policies)?,
        _ => return Ok(passed(PolicyBlock::Outside)),
    }
    Ok(Step {
        taken: true,
        block: PolicyBlock::Outside,
    })
}

/// Does what a line of the row says where the block is open.
fn put_line(
    alloc: Global,
    block: PolicyBlock,
    row: Row,
    line: &Line,
    said: &[Said],
    policies: &mut Policies,
) -> Result<Step, Cause>
    ensures ok { IfOk result (λ step. put block row line.now said.now policies.old ≡ Ok (record { taken = step.taken; block = step.block; policies = policies.new })) }
    ensures refused { IfErr result (λ cause. cause ≢ Cause.Memory → put block row line.now said.now policies.old ≡ Err cause) }
    ensures unchanged { OnErr result (policies.new ≡ policies.old) }
{
    match block {
        PolicyBlock::Outside => return put_at_top(alloc, row, line, said, policies),
        PolicyBlock::Access(at) => put_entry_line(line, said, at, policies)?,
        PolicyBlock::Map(at) => put_map_block_line(alloc, row, line, said, at, policies)?,
    }
    Ok(Step { taken: true, block })
}

/// Reads a line of a row.
fn read_of_row(
    alloc: Global,
    block: PolicyBlock,
    found: Found,
    line: &Line,
    policies: &mut Policies,
) -> Result<Step, Cause>
    requires few { length line.now.words < 2 ^ 32 - 1 }
    requires head { found.head ≤ length line.now.words }
    ensures ok { IfOk result (λ step. said_reading block found.row line.now policies.old (said_in found line.now.words) ≡ Ok (record { taken = step.taken; block = step.block; policies = policies.new })) }
    ensures refused { IfErr result (λ cause. cause ≢ Cause.Memory → said_reading block found.row line.now policies.old (said_in found line.now.words) ≡ Err cause) }
    ensures unchanged { OnErr result (policies.new ≡ policies.old) }
{
    let said = read_row(alloc, found, line.words.as_slice())?;
    put_line(alloc, block, found.row, line, said.as_slice(), policies)
}

/// Reads a line that stands in a context.
fn read_in(
    alloc: Global,
    context: Context,
    block: PolicyBlock,
    line: &Line,
    policies: &mut Policies,
) -> Result<Step, Cause>
    requires few { length line.now.words < 2 ^ 32 - 1 }
    ensures ok { IfOk result (λ step. context_reading context block line.now policies.old ≡ Ok (record { taken = step.taken; block = step.block; policies = policies.new })) }
    ensures refused { IfErr result (λ cause. cause ≢ Cause.Memory → context_reading context block line.now policies.old ≡ Err cause) }
    ensures unchanged { OnErr result (policies.new ≡ policies.old) }
{
    match find_row(context, line.words.as_slice()) {
        Ok(found) if takes_row(context, found.row) => {
            read_of_row(alloc, block, found, line, policies)
        }
        _ => Ok(passed(block)),
    }
}

/// Reads a line in the open block, or at the top, where it closes the block.
#[tactic(auto, unfolding(crate::specs::Policies::policy_reading))]
fn read_line(
    alloc: Global,
    line: &Line,
    block: PolicyBlock,
    policies: &mut Policies,
) -> Result<Step, Cause>
    requires few { length line.now.words < 2 ^ 32 - 1 }
    ensures ok { IfOk result (λ step. policy_reading line.now block policies.old ≡ Ok (record { taken = step.taken; block = step.block; policies = policies.new })) }
    ensures refused { IfErr result (λ cause. cause ≢ Cause.Memory → policy_reading line.now block policies.old ≡ Err cause) }
    ensures unchanged { OnErr result (policies.new ≡ policies.old) }
{
    if !line.indented {
        return read_in(alloc, Context::Top, PolicyBlock::Outside, line, policies);
    }
    match context_in(block, policies) {
        Some(context) => read_in(alloc, context, block, line, policies),
        None => Ok(passed(block)),
    }
}

/// The refusal of a line. Want of memory is at line 0.
fn refused_at(line: u32, cause: Cause) -> Refused
    ensures cause { result.cause ≡ cause }
    ensures line { cause ≢ Cause.Memory → result.line ≡ line }
{
    match cause {
        Cause::Memory => Refused { line: 0, cause },
        _ => Refused { line, cause },
    }
}

/// Reads a line of a file into its lists and route maps. True where the line was a policy's, and then it is in
/// `policies`; else they stay. A top line sets `block` to the access list or the map that it opens, or to none. A line
/// with a blank before it is read in the open block. After a refusal `block` and `policies` are unchanged. Policies within
/// the limit of entries stay within it.
pub fn policy_line(
    alloc: Global,
    line: &Line,
    block: &mut PolicyBlock,
    policies: &mut Policies,
) -> Result<bool, Refused>
    requires few { length line.now.words < 2 ^ 32 - 1 }
    ensures ok { IfOk result (λ taken. policy_reading line.now block.old policies.old ≡ Ok (record { taken = taken; block = block.new; policies = policies.new })) }
    ensures refused { IfErr result (λ refused. refused.cause ≢ Cause.Memory → policy_reading line.now block.old policies.old ≡ Err refused.cause) }
    ensures line { IfErr result (λ refused. refused.cause ≢ Cause.Memory → refused.line ≡ line.now.number) }
    ensures unchanged { OnErr result (policies.new ≡ policies.old) }
    ensures same_block { OnErr result (block.new ≡ block.old) }
    ensures few { IfOk result (λ _. policy_entries policies.old ≤ MOST_POLICY_ENTRIES → policy_entries policies.new ≤ MOST_POLICY_ENTRIES) }
{
    match read_line(alloc, line, *block, policies) {
        Ok(step) => {
            *block = step.block;
            Ok(step.taken)
        }
        Err(cause) => Err(refused_at(line.number, cause)),
    }
}
