//! Which pairs of networks are refused.

ghost use Rattle.std.specs.Prelude.{◌≡◌, IfOk};
ghost use Rattle.paired_nets.specs.Refusals as refusals;

use crate::limits::passes_limit;
use crate::peers::peer_refusal;
use net_model::Net;
use std::alloc::{AllocError, Global};

/// Why two networks are not compared.
#[derive(Clone, Copy)]
pub enum PairCause {
    /// An external peer of both has another AS number on the right.
    PeerDiffers,
    /// Both together track too many communities or AS numbers.
    PairLimit,
}

/// Where two networks are refused: the place of the file among those of the right network, its line, and why.
#[derive(Clone, Copy)]
pub struct PairRefused {
    pub file: u64,
    pub line: u32,
    pub cause: PairCause,
}

/// Why two networks are refused: at the first neighbour line of the right files of an external peer that the left
/// network has too, by the name of its router and its address, and with another AS number; or else, at line 0 of the
/// first right file, where the values that both track are too many. None where they are compared.
pub fn pair_refusal(
    alloc: Global,
    left: &Net,
    right: &Net,
) -> Result<Option<PairRefused>, AllocError>
    ensures { IfOk result (λ why. why ≡ refusals.pair_refusal left.now right.now) }
{
    let differing = peer_refusal(alloc, left, right)?;
    if differing.is_some() {
        return Ok(differing);
    }
    if passes_limit(alloc, left.tracked(), right.tracked())? {
        return Ok(Some(PairRefused {
            file: 0,
            line: 0,
            cause: PairCause::PairLimit,
        }));
    }
    Ok(None)
}
