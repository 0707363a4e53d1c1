//! Shares of the limits of variables, as row sides and bounds.
ghost use Rattle.std.specs.Prelude.{◌≡◌, ◌++◌, IfOk, filter, map};
ghost use Rattle.std.specs.Option.{option_to_list};
ghost use Rattle.certs.specs.Combination.{source_side};
ghost use Rattle.certs.specs.Ended.{share_for};
ghost use Rattle.certs.specs.Named.{named};
ghost use Rattle.simplex.specs.Combined.{is_on};

use crate::{is_less, limit_share};
use certs::Share;
use frac128::Frac;
use lp_model::Side;
use std::alloc::AllocError;

/// The share of a variable that counts so often: its upper limit above 0, its lower one below, and none for 0.
pub(crate) fn share(columns: u32, variable: u32, count: Frac) -> Option<Share>
    ensures { option_to_list result ≡ map (named columns) (share_for variable count) }
{
    let zero = Frac::whole(0);
    if count == zero {
        return None;
    }
    if is_less(zero, count) {
        return Some(limit_share(columns, variable, Side::Up, count));
    }
    Some(limit_share(columns, variable, Side::Lo, count.negate()))
}

/// The share where it is of an upper limit, or where it is of a lower one.
pub(crate) fn on_side(share: Option<Share>, upper: bool) -> Option<Share>
    ensures { let is_wanted = λ (s : Share). is_on upper (source_side s.source) in
        option_to_list result ≡ filter is_wanted (option_to_list share) }
{
    let share = share?;
    if (share.source.side() == Side::Up) != upper {
        return None;
    }
    Some(share)
}

/// Appends a share that may be there.
pub(crate) fn append(shares: &mut Vec<Share>, share: Option<Share>) -> Result<(), AllocError>
    ensures { IfOk result (λ done. shares.new.items ≡ shares.old.items ++ option_to_list share) }
{
    if let Some(share) = share {
        shares.push(share)?;
    }
    Ok(())
}
