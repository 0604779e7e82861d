//! What theorems come to, of two callers at one table. The function calls the theorems that it needs, so none of these may say less.
ghost use Rattle.ww_callers.specs.Uses.{SeatsShareNone, PassesShareNone, DesksShareNone};

use crate::exclusion::{desks_exclude, passes_exclude};
use ww_table_laws::laws::owners_exclude;

/// Two seats, passes or desks at other places of a table have no lock or node in common.
pub fn callers_share_none()
    ensures seats { SeatsShareNone }
    ensures passes { PassesShareNone }
    ensures desks { DesksShareNone }
{
    owners_exclude();
    passes_exclude();
    desks_exclude();
}
