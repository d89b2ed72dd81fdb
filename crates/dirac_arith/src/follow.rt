//! The contexts of follow decisions.
ghost use Rattle.std.specs.Prelude.{◌≡◌, ◌-◌, ◌<◌, length};
ghost use Rattle.dirac_arith.specs.Spelling.{AreContexts, follow_at};

use crate::contexts::CONTEXTS;

/// The context of follow decision number `i`: the last one of the list repeats.
pub fn follow_context(follow: &[u8], i: usize) -> u8
    requires not_empty { 0 < length follow.now }
    requires contexts { AreContexts follow.now }
    ensures exact { result ≡ follow_at follow.now i }
    ensures context { result < CONTEXTS }
{
    let last = follow.len() - 1;
    if i < last { follow[i] } else { follow[last] }
}
