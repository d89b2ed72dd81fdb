ghost use Rattle.std.specs.Prelude.{◌≡◌, ℕ, ◌+◌, ◌<◌, ◌≤◌, [], ◌++◌, true, false, Ok, IfOk, OnOk, is_ok};
ghost use Rattle.std.specs.Thread.{IsSync};
ghost use Rattle.dirac_rows.specs.Answers.{AnswerRows, Gathers};

use crate::claims::{RowClaims, RowSeat};
use crate::gather::in_order;
use dirac_common::{NoMemory, RowGate};
use std::alloc::Global;
use std::marker::Sync;
use std::thread::{Threads, join};

/// Claims rows until `None`, and answers each.
fn claim_all<T: Drop, G: RowGate, F: Fn(u32) -> Result<T, NoMemory>>(
    alloc: Global,
    claims: &RowClaims,
    seat: &mut RowSeat,
    gate: &G,
    work: &F,
) -> Result<Vec<(u32, T)>, NoMemory>
    requires own { seat.old.claims ≡ claims.now }
    requires new { (seat.old.kept ≡ []) × (seat.old.had_none ≡ false) }
    requires work { (r : ℕ) → r < claims.now.rows → F.pre work.now r }
    ensures own { seat.new.claims ≡ claims.now }
    ensures shares { (seat.new.shares ≡ seat.old.shares) × (seat.new.given_up ≡ seat.old.given_up) }
    ensures had_none { OnOk result (seat.new.had_none ≡ true) }
    ensures found { IfOk result (λ v. Gathers (λ r x. F.post work.now r (Ok x)) claims.now.rows seat.new.kept v.items) }
{
    let mut found = Vec::new(alloc);
    'claiming: while let Some(row) = claims.claim(seat) {
        gate.enter(row);
        let item = work(row)?;
        found.push((row, item))?;
    }
    Ok(found)
}

/// What `claim_all` finds, and the seat, also where there was no memory.
fn claimed_by<T: Drop, G: RowGate, F: Fn(u32) -> Result<T, NoMemory>>(
    alloc: Global,
    claims: &RowClaims,
    mut seat: RowSeat,
    gate: &G,
    work: &F,
) -> (RowSeat, Result<Vec<(u32, T)>, NoMemory>)
    requires own { seat.claims ≡ claims.now }
    requires new { (seat.kept ≡ []) × (seat.had_none ≡ false) }
    requires work { (r : ℕ) → r < claims.now.rows → F.pre work.now r }
    ensures own { result.0.claims ≡ claims.now }
    ensures shares { result.0.shares + result.0.given_up ≡ seat.shares + seat.given_up }
    ensures had_none { OnOk result.1 (result.0.had_none ≡ true) }
    ensures found { IfOk result.1 (λ v. Gathers (λ r x. F.post work.now r (Ok x)) claims.now.rows
        result.0.kept v.items) }
{
    let found = claim_all(alloc, claims, &mut seat, gate, work);
    (seat, found)
}

/// Both lists, one behind the other.
fn put_together<T: Drop>(
    ours: Result<Vec<(u32, T)>, NoMemory>,
    theirs: Result<Vec<(u32, T)>, NoMemory>,
) -> Result<Vec<(u32, T)>, NoMemory>
    ensures items { IfOk result (λ v. IfOk ours (λ a. IfOk theirs (λ b. v.items ≡ a.items ++ b.items))) }
    ensures both_ok { OnOk result ((is_ok ours ≡ true) × (is_ok theirs ≡ true)) }
{
    let mut all = ours?;
    let mut rest = theirs?;
    all.append(&mut rest)?;
    Ok(all)
}

/// So many workers claim rows until `None`, in threads of their own where threads can be had. The seat comes back with
/// the rows of all.
#[cycle(workers)]
fn claimed_by_all<
    R: Threads + Sync,
    T: Send + Drop,
    G: RowGate,
    F: Fn(u32) -> Result<T, NoMemory> + Sync,
>(
    rt: &R,
    alloc: Global,
    claims: &RowClaims,
    mut seat: RowSeat,
    workers: u32,
    gate: &G,
    work: &F,
) -> (RowSeat, Result<Vec<(u32, T)>, NoMemory>)
    requires own { seat.claims ≡ claims.now }
    requires new { (seat.kept ≡ []) × (seat.had_none ≡ false) }
    requires workers { (1 ≤ workers) × (workers ≤ seat.shares) }
    requires work { (r : ℕ) → r < claims.now.rows → F.pre work.now r }
    ensures own { result.0.claims ≡ claims.now }
    ensures shares { result.0.shares + result.0.given_up ≡ seat.shares + seat.given_up }
    ensures had_none { OnOk result.1 (result.0.had_none ≡ true) }
    ensures found { IfOk result.1 (λ v. Gathers (λ r x. F.post work.now r (Ok x)) claims.now.rows
        result.0.kept v.items) }
{
    if workers <= 1 {
        return claimed_by(alloc, claims, seat, gate, work);
    }
    let other = claims.split(&mut seat);
    let ((mut seat, ours), (other, theirs)) = join(
        rt,
        || -> (RowSeat, Result<Vec<(u32, T)>, NoMemory>)
            requires { IsSync R.row × IsSync G.row × IsSync F.row
                × (seat.claims ≡ claims.now) × (seat.kept ≡ []) × (seat.had_none ≡ false)
                × (1 < workers) × (workers ≤ seat.shares + 1)
                × ((r : ℕ) → r < claims.now.rows → F.pre work.now r) }
            ensures own { result.0.claims ≡ claims.entry.now }
            ensures shares { result.0.shares + result.0.given_up ≡ seat.shares + seat.given_up }
            ensures had_none { OnOk result.1 (result.0.had_none ≡ true) }
            ensures found { IfOk result.1 (λ v. Gathers (λ r x. F.post work.entry.now r (Ok x)) claims.entry.now.rows
                result.0.kept v.items) }
        { claimed_by_all(rt, alloc, claims, seat, workers - 1, gate, work) },
        || -> (RowSeat, Result<Vec<(u32, T)>, NoMemory>)
            requires { IsSync G.row × IsSync F.row
                × (other.claims ≡ claims.now) × (other.kept ≡ []) × (other.had_none ≡ false)
                × ((r : ℕ) → r < claims.now.rows → F.pre work.now r) }
            ensures own { result.0.claims ≡ claims.entry.now }
            ensures shares { result.0.shares + result.0.given_up ≡ other.shares + other.given_up }
            ensures had_none { OnOk result.1 (result.0.had_none ≡ true) }
            ensures found { IfOk result.1 (λ v. Gathers (λ r x. F.post work.entry.now r (Ok x)) claims.entry.now.rows
                result.0.kept v.items) }
        { claimed_by(alloc, claims, other, gate, work) },
    );
    claims.join(&mut seat, other);
    (seat, put_together(ours, theirs))
}

/// The answers of `work` on each row below `rows`, in the order of the rows. So many workers, but no more than there
/// are rows, claim the rows one by one, and each passes the gate before it works on a row. Where a thread can't be had,
/// its part is done by the caller.
pub fn map_rows<
    R: Threads + Sync,
    T: Send + Drop,
    G: RowGate,
    F: Fn(u32) -> Result<T, NoMemory> + Sync,
>(rt: &R, alloc: Global, rows: u32, workers: u32, gate: &G, work: &F) -> Result<Vec<T>, NoMemory>
    requires workers { (1 ≤ workers) × (workers ≤ 64) }
    requires work { (r : ℕ) → r < rows → F.pre work.now r }
    ensures { IfOk result (λ v. AnswerRows (λ r x. F.post work.now r (Ok x)) rows v.items) }
{
    let workers = workers.min(rows).max(1);
    let (claims, seat) = RowClaims::try_new(alloc, rows, workers)?;
    let (seat, found) = claimed_by_all(rt, alloc, &claims, seat, workers, gate, work);
    let found = found?;
    claims.finish(seat);
    in_order(alloc, rows, found)
}
