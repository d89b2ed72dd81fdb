ghost use Rattle.std.specs.Prelude.{◌≡◌, ◌+◌, ◌*◌, ◌/◌, ◌<◌, ◌≤◌};

/// The rows of one of several workers where they are divided in advance: from the first number to before the second.
/// No two workers' counts differ by more than 1.
pub fn split_rows(rows: u32, workers: u32, worker: u32) -> (u32, u32)
    requires { (worker < workers) × (workers ≤ 64) }
    ensures { result ≡ ((rows * worker) / workers, (rows * (worker + 1)) / workers) }
{
    let (rows, workers, worker) = (rows as u64, workers as u64, worker as u64);
    let start = rows * worker / workers;
    let end = rows * (worker + 1) / workers;
    (start as u32, end as u32)
}
