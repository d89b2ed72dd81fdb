ghost use Rattle.dirac_rows.specs.Rule.{Draws, KeepsRule, Looks, first_view};
ghost use Rattle.dirac_rows.specs.Rule.{left_by_split, made_by_split, made_by_join, spent_view};

use crate::view::{Terms, View};
use atomic_table::{Join, Play, Split, TableRule};

/// The rule of the claims' one word and of all seats' views.
pub struct ClaimRule;

impl TableRule<(), View, Terms> for ClaimRule {
    ghost holds = { KeepsRule };

    ghost first = { first_view };
}

/// A seat draws the word's number, and the word grows by 1.
pub struct Drawing;

impl Play<(), View> for Drawing {
    ghost then = { Draws };
}

/// A new seat gets one share of another.
pub struct Splitting;

impl Split<View> for Splitting {
    ghost left = { left_by_split };

    ghost right = { made_by_split };
}

/// A seat takes over what another has.
pub struct Joining;

impl Join<View> for Joining {
    ghost both = { made_by_join };

    ghost spent = { spent_view };
}

/// A seat looks at the word, and learns that it keeps no number twice.
pub struct Looking;

impl Play<(), View> for Looking {
    ghost then = { Looks };
}
