//! Which row a line is of: the longest head that fits in the context.

ghost use Rattle.std.specs.Prelude.{◌≡◌, ℕ, ◌<◌, ◌≤◌, ◌^◌, length, IfSome, IfOk};
ghost use Rattle.std.specs.List.{list_any};
ghost use Rattle.ios_policy_reader.specs.Heads.{context_number, is_over, rest_of, fit, found_by, longer, numbered_entry, row_among, fits_any, row_of};

use crate::cause::Cause;
use crate::head_table::HEADS;
use crate::words::{is_table_word, length_of_keyword, read_range};
use mw_text::List;

/// Where a line stands: at the top, or in a block.
#[derive(Clone, Copy)]
pub enum Context {
    Top,
    InInterface,
    InOspf,
    InBgp,
    InMap,
    /// In the block of an `ip access-list standard` line.
    InStandard,
    /// In the block of an `ip access-list extended` line.
    InExtended,
}

/// What a line is about.
#[derive(Clone, Copy)]
pub enum Row {
    Hostname,
    InterfaceBlock,
    StaticRoute,
    OspfBlock,
    BgpBlock,
    AccessList,
    StandardBlock,
    ExtendedBlock,
    PrefixList,
    CommunityList,
    PathList,
    MapBlock,
    Banner,
    IgnoredBlock,
    Ignored,
    Address,
    NoAddress,
    Shutdown,
    NoShutdown,
    Bandwidth,
    OspfCost,
    AccessGroup,
    RouterId,
    OspfNetwork,
    Passive,
    NoPassive,
    ReferenceBandwidth,
    OspfRedistribute,
    Originate,
    AlwaysCompareMed,
    CompareRouterId,
    DeterministicMed,
    BgpNetwork,
    BgpRedistribute,
    Neighbor,
    MatchAddress,
    MatchPrefixList,
    MatchCommunity,
    MatchPath,
    SetPreference,
    SetMetric,
    SetWeight,
    SetCommunity,
    SetOrigin,
    SetPrepend,
    SetMetricType,
    StandardEntry,
    ExtendedEntry,
}

/// A head in a context, and the row of the lines that begin with it.
#[derive(Clone, Copy)]
pub struct Head(pub Context, pub [u8; 30], pub Row);

/// The row of a line, and how many words its head has.
#[derive(Clone, Copy)]
pub struct Found {
    pub row: Row,
    pub head: u32,
}

/// Whether no word is left of a head.
fn is_empty_head(head: &[u8]) -> bool
    ensures { result ≡ is_over head.now }
{
    match head.first() {
        None => true,
        Some(byte) => *byte == b' ',
    }
}

/// What is left of a head after its first word.
fn after_word(head: &[u8]) -> &[u8]
    ensures { result.now ≡ rest_of head.now }
{
    let end = length_of_keyword(head);
    if end < head.len() {
        &head[end + 1..]
    } else {
        &head[end..]
    }
}

/// How many words a head has, where the line begins with them.
fn words_of_head(head: &[u8], words: &[List<u8>]) -> Option<u32>
    requires few { length words.now < 2 ^ 32 }
    ensures value { result ≡ fit 0 head.now words.now }
    ensures within { IfSome result (λ count. count ≤ length words.now) }
{
    let mut rest = head;
    for at in 0..words.len() {
        if is_empty_head(rest) {
            return Some(at as u32);
        }
        if !is_table_word(words[at].as_slice(), rest) {
            return None;
        }
        rest = after_word(rest);
    }
    if is_empty_head(rest) {
        Some(words.len() as u32)
    } else {
        None
    }
}

/// The row of a head, where it stands in the context and the line begins with it.
fn find_by(context: Context, words: &[List<u8>], head: &Head) -> Option<Found>
    requires few { length words.now < 2 ^ 32 }
    ensures value { result ≡ found_by context words.now head.now }
    ensures within { IfSome result (λ found. found.head ≤ length words.now) }
{
    if head.0 as u8 != context as u8 {
        return None;
    }
    let count = words_of_head(&head.1, words)?;
    Some(Found {
        row: head.2,
        head: count,
    })
}

/// The one with the longer head.
fn longer_of(best: Option<Found>, next: Option<Found>) -> Option<Found>
    ensures value { result ≡ longer best next }
    ensures within { (n : ℕ) → IfSome best (λ old. old.head ≤ n) → IfSome next (λ new. new.head ≤ n) → IfSome result (λ found. found.head ≤ n) }
{
    match (best, next) {
        (None, _) => next,
        (_, None) => best,
        (Some(old), Some(new)) => { if old.head < new.head { next } else { best } }
    }
}

/// The entry that a line in the block of an access list is, where it begins with a number.
fn find_numbered(context: Context, words: &[List<u8>]) -> Option<Found>
    ensures value { result ≡ numbered_entry context words.now }
    ensures none_before { IfSome result (λ found. found.head ≡ 0) }
{
    let first = words.first()?;
    read_range(first.as_slice(), 0, 4_294_967_295)?;
    match context {
        Context::InStandard => Some(Found {
            row: Row::StandardEntry,
            head: 0,
        }),
        Context::InExtended => Some(Found {
            row: Row::ExtendedEntry,
            head: 0,
        }),
        _ => None,
    }
}

/// The row with the longest of these heads that fits in the context.
fn longest(heads: &[Head], context: Context, words: &[List<u8>]) -> Option<Found>
    requires few { length words.now < 2 ^ 32 }
    ensures value { result ≡ row_among heads.now context words.now }
    ensures within { IfSome result (λ found. found.head ≤ length words.now) }
{
    let mut best = find_numbered(context, words);
    for head in heads {
        best = longer_of(best, find_by(context, words, head));
    }
    best
}

/// Whether the line begins with a head, in any context.
fn begins_with(words: &[List<u8>], head: &Head) -> bool
    requires few { length words.now < 2 ^ 32 }
    ensures { result ≡ fits_any words.now head.now }
{
    words_of_head(&head.1, words).is_some()
}

/// Whether the line begins with one of these heads, in any context.
fn has_head(heads: &[Head], words: &[List<u8>]) -> bool
    requires few { length words.now < 2 ^ 32 }
    ensures { result ≡ list_any (fits_any words.now) heads.now }
{
    heads.iter().any(|head| begins_with(words, head))
}

/// The row of a line in a context: that of the longest head there. Where none fits, the line is out of place if some
/// head of another context fits, else its command is unknown.
pub fn find_row(context: Context, words: &[List<u8>]) -> Result<Found, Cause>
    requires few { length words.now < 2 ^ 32 }
    ensures value { result ≡ row_of context words.now }
    ensures within { IfOk result (λ found. found.head ≤ length words.now) }
{
    match longest(&HEADS, context, words) {
        Some(found) => Ok(found),
        None => {
            if has_head(&HEADS, words) {
                Err(Cause::OutOfPlace)
            } else {
                Err(Cause::UnknownCommand)
            }
        }
    }
}
