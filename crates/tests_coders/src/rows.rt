ghost use Rattle.std.specs.Prelude.{◌≡◌, ◌+◌, ◌<◌, ◌≤◌, Ok, IfOk};
ghost use Rattle.std.specs.Thread.{IsSync};
ghost use Rattle.dirac_rows.specs.Answers.{AnswerRows};

use crate::gates::{FIRST, HoldsRows, SECOND, THIRD};
use dirac_common::{NoMemory, OpenGate, RowGate};
use dirac_rows::{RowClaims, RowSeat, map_rows, split_rows};
use std::alloc::Global;
use std::process::Abort;
use std::sync::Wait;
use std::sync::atomic::AtomicU64;
use std::sync::atomic::Ordering::SeqCst;
use std::thread;
use std::thread::Threads;

// Item r of the answers is r + 100.
fn hundreds<R: Threads + Sync, G: RowGate>(
    rt: &R,
    alloc: Global,
    rows: u32,
    workers: u32,
    gate: &G,
) -> Result<Vec<u32>, NoMemory>
    requires { (1 ≤ workers) × (workers ≤ 64) × (rows ≤ 1000) }
    ensures { IfOk result (λ v. AnswerRows (λ r x. x ≡ r + 100) rows v.items) }
{
    let work = |row: u32| -> Result<u32, NoMemory>
        requires { row < 1000 }
        ensures { result ≡ Ok (row + 100) }
    { Ok(row + 100) };
    map_rows(rt, alloc, rows, workers, gate, &work)
}

// Claims a row and passes the gate, then claims once more.
fn claim_twice<G: RowGate>(
    claims: &RowClaims,
    mut seat: RowSeat,
    gate: &G,
) -> (Option<u32>, Option<u32>)
    requires { seat.claims ≡ claims.now }
{
    let row = claims.claim(&mut seat);
    if let Some(row) = row {
        gate.enter(row);
    }
    let next = claims.claim(&mut seat);
    (row, next)
}

// What two callers' threads claim with a seat each: this one's answers and the other's, if it could be started.
fn claimed_in_threads<R: Threads + Wait + Sync, G: RowGate>(
    rt: &R,
    claims: &RowClaims,
    ours: RowSeat,
    theirs: RowSeat,
    gate: &G,
) -> Option<((Option<u32>, Option<u32>), (Option<u32>, Option<u32>))>
    requires { (ours.claims ≡ claims.now) × (theirs.claims ≡ claims.now) }
{
    thread::scope(
        thread::scope_env(),
        rt,
        move |scope| -> Option<((Option<u32>, Option<u32>), (Option<u32>, Option<u32>))>
            requires { IsSync G.row × (ours.claims ≡ claims.now) × (theirs.claims ≡ claims.now) }
        {
            let child = scope.spawn(
                move || -> (Option<u32>, Option<u32>)
                    requires { theirs.claims ≡ claims.now }
                { claim_twice(claims, theirs, gate) },
            );
            let own = claim_twice(claims, ours, gate);
            match child {
                Ok(child) => Some((own, child.join(rt))),
                Err(_) => None,
            }
        },
    )
}

#[test]
fn two_threads_claim_a_row_each(rt: HostRuntime) -> Result<(), NoMemory> {
    let gate = HoldsRows::new(FIRST | SECOND, FIRST | SECOND);
    let (claims, mut seat) = RowClaims::try_new(rt.alloc(), 2, 2)?;
    let other = claims.split(&mut seat);
    let Some((ours, theirs)) = claimed_in_threads(&rt, &claims, seat, other, &gate) else {
        return Err(NoMemory);
    };
    assert!(rt; gate.all_came());
    let rows = (ours.0, theirs.0);
    assert!(rt; rows == (Some(0), Some(1)) || rows == (Some(1), Some(0)));
    assert_eq!(rt; (ours.1, theirs.1), (None, None));
    Ok(())
}

#[test]
fn each_gate_sees_all_rows(rt: HostRuntime) -> Result<(), NoMemory> {
    for held in [FIRST, SECOND, FIRST | SECOND] {
        let gate = HoldsRows::new(held, FIRST | SECOND);
        let items = hundreds(&rt, rt.alloc(), 2, 2, &gate)?;
        assert_eq!(rt; items.as_slice(), [100, 101].as_slice());
        assert!(rt; gate.all_came());
    }
    for held in [FIRST, SECOND, THIRD] {
        let gate = HoldsRows::new(held, FIRST | SECOND | THIRD);
        let items = hundreds(&rt, rt.alloc(), 3, 2, &gate)?;
        assert_eq!(rt; items.as_slice(), [100, 101, 102].as_slice());
        assert!(rt; gate.all_came());
    }
    Ok(())
}

// Of three rows, how many are worked on before their gate is passed.
fn rows_before_their_gate<R: Threads + Sync>(
    rt: &R,
    alloc: Global,
    workers: u32,
) -> Result<u64, NoMemory>
    requires { (1 ≤ workers) × (workers ≤ 64) }
{
    let gate = HoldsRows::new(0, 0);
    let early = AtomicU64::new(0);
    let work = |row: u32| -> Result<u32, NoMemory> {
        if !gate.was_entered(row) {
            early.fetch_add(1, SeqCst);
        }
        Ok(row)
    };
    let _rows = map_rows(rt, alloc, 3, workers, &gate, &work)?;
    Ok(early.load(SeqCst))
}

// No clause says when a gate is passed.
#[test]
fn gates_are_passed_before_the_work(rt: HostRuntime) -> Result<(), NoMemory> {
    for workers in [1, 2, 3] {
        assert_eq!(rt; rows_before_their_gate(&rt, rt.alloc(), workers)?, 0);
    }
    Ok(())
}

// Where there are no rows, none is claimed.
fn claims_none<R: Abort>(rt: &R, alloc: Global) -> Result<(), NoMemory> {
    let (none, mut seat) = RowClaims::try_new(alloc, 0, 1)?;
    assert_eq!(rt; none.claim(&mut seat), None);
    Ok(())
}

// One seat claims all of three rows, and then none, again and again.
fn claims_three<R: Abort>(rt: &R, alloc: Global) -> Result<(), NoMemory> {
    let (claims, mut seat) = RowClaims::try_new(alloc, 3, 1)?;
    let rows = [
        claims.claim(&mut seat),
        claims.claim(&mut seat),
        claims.claim(&mut seat),
        claims.claim(&mut seat),
    ];
    assert_eq!(rt; rows, [Some(0), Some(1), Some(2), None]);
    let None = claims.claim(&mut seat) else {
        return Err(NoMemory);
    };
    assert_eq!(rt; claims.finish(seat).rows, 3);
    Ok(())
}

#[test]
fn rows_are_claimed_once(rt: HostRuntime) -> Result<(), NoMemory> {
    let alloc = rt.alloc();
    for workers in [1, 2, 5] {
        let items = hundreds(&rt, alloc, 7, workers, &OpenGate)?;
        assert_eq!(rt;
            items.as_slice(),
            [100, 101, 102, 103, 104, 105, 106].as_slice()
        );
    }
    assert_eq!(rt; hundreds(&rt, alloc, 0, 2, &OpenGate)?.len(), 0);
    claims_none(&rt, alloc)?;
    claims_three(&rt, alloc)?;
    let parts = [
        split_rows(10, 3, 0),
        split_rows(10, 3, 1),
        split_rows(10, 3, 2),
    ];
    assert_eq!(rt; parts, [(0, 3), (3, 6), (6, 10)]);
    Ok(())
}
